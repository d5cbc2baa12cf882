//! The nearest use of a name.
use crate::code::{Code, Site};
use crate::reversed::Backwards;
use dsu_io::List;
use name_sets::{MOST_NAMES, NameId, NameSet};
use skeletons::Point;
use std::alloc::{AllocError, Global};

/// Where a search doesn't go on.
#[derive(Clone, Copy)]
pub(crate) enum Bound {
    /// Nowhere.
    None,
    /// At check-ins.
    CheckIns,
    /// At points that no transaction encloses.
    Outside,
}

/// A search for a name, over points of bodies and functions that they call. No point and no function is looked at twice.
#[derive(Drop)]
pub(crate) struct Search<'a> {
    alloc: Global,
    code: &'a Code<'a>,
    name: NameId,
    /// For each point of all bodies whether it was come to.
    seen: Vec<bool>,
    /// The functions that points which were looked at call, and how many of them were looked at.
    called: Vec<NameId>,
    done: usize,
    known: NameSet,
}

/// Whether a search goes on at a point.
fn goes_on(bound: Bound, point: Point) -> bool {
    match bound {
        Bound::None => true,
        Bound::CheckIns => !point.kind.is_check_in(),
        Bound::Outside => point.is_enclosed(),
    }
}

/// For each point of a body the points that are next to it.
#[derive(Clone, Copy)]
enum Lists<'a> {
    /// Those to which control goes.
    After(&'a [List<u32>]),
    /// Those from which it comes.
    Before(&'a [List<usize>]),
}

impl<'a> Lists<'a> {
    /// How many points have a list.
    fn len(self) -> usize {
        match self {
            Lists::After(lists) => lists.len(),
            Lists::Before(lists) => lists.len(),
        }
    }

    /// How many points are next to one.
    fn count_at(self, point: usize) -> usize {
        match self {
            Lists::After(lists) => match lists.get(point) {
                Some(list) => list.as_slice().len(),
                None => 0,
            },
            Lists::Before(lists) => match lists.get(point) {
                Some(list) => list.as_slice().len(),
                None => 0,
            },
        }
    }

    /// One of the points that are next to one, by its place among them.
    fn target(self, point: usize, place: usize) -> Option<usize> {
        match self {
            Lists::After(lists) => match lists.get(point)?.as_slice().get(place) {
                Some(target) => Some(*target as usize),
                None => None,
            },
            Lists::Before(lists) => lists.get(point)?.as_slice().get(place).copied(),
        }
    }
}

impl<'a> Search<'a> {
    /// A search that looked at nothing yet.
    pub(crate) fn new(
        alloc: Global,
        code: &'a Code<'a>,
        name: NameId,
    ) -> Result<Search<'a>, AllocError> {
        Ok(Search {
            alloc,
            code,
            name,
            seen: vec![in alloc; false; code.points()]?,
            called: Vec::new(alloc),
            done: 0,
            known: NameSet::empty(),
        })
    }

    /// Whether a point wasn't come to yet; it was from now on.
    fn comes_to(&mut self, site: Site) -> bool {
        let number = self.code.number(site);
        if number >= self.seen.len() || self.seen[number] {
            return false;
        }
        self.seen[number] = true;
        true
    }

    /// Adds a function to those that are called.
    fn call(&mut self, function: NameId) -> Result<(), AllocError> {
        if self.known.holds(function) {
            return Ok(());
        }
        self.known.add(function);
        self.called.push(function)?;
        Ok(())
    }

    /// Whether a point uses the name.
    pub(crate) fn uses(&self, site: Site) -> bool {
        let Some(point) = self.code.point(site) else {
            return false;
        };
        match point.kind.used() {
            Some(used) => used.index() == self.name.index(),
            None => false,
        }
    }

    /// Looks at a point: whether it uses the name.
    fn visit(&mut self, site: Site) -> Result<bool, AllocError> {
        let Some(point) = self.code.point(site) else {
            return Ok(false);
        };
        if let Some(function) = point.kind.called() {
            self.call(function)?;
        }
        Ok(self.uses(site))
    }

    /// Adds the points next to one to those that wait, unless they were come to.
    fn enqueue(
        &mut self,
        waiting: &mut Vec<usize>,
        site: Site,
        lists: Lists<'_>,
    ) -> Result<(), AllocError> {
        for place in 0..lists.count_at(site.point) {
            let Some(point) = lists.target(site.point, place) else {
                return Ok(());
            };
            if self.comes_to(Site { point, ..site }) {
                waiting.push(point)?;
            }
        }
        Ok(())
    }

    /// Whether the search goes on at a point.
    fn goes_on_at(&self, site: Site, bound: Bound) -> bool {
        match self.code.point(site) {
            Some(point) => goes_on(bound, point),
            None => false,
        }
    }

    /// Looks at a point, and adds those next to it to those that wait.
    fn step(
        &mut self,
        waiting: &mut Vec<usize>,
        site: Site,
        lists: Lists<'_>,
        bound: Bound,
    ) -> Result<bool, AllocError> {
        if self.visit(site)? {
            return Ok(true);
        }
        if self.goes_on_at(site, bound) {
            self.enqueue(waiting, site, lists)?;
        }
        Ok(false)
    }

    /// The nearest use after a point of a body, where the points next to each are those of the lists.
    fn walk(
        &mut self,
        from: Site,
        lists: Lists<'_>,
        bound: Bound,
    ) -> Result<Option<Site>, AllocError> {
        let mut waiting = Vec::new(self.alloc);
        self.enqueue(&mut waiting, from, lists)?;
        for turn in 0..lists.len() {
            let Some(point) = waiting.get(turn).copied() else {
                return Ok(None);
            };
            let site = Site { point, ..from };
            if self.step(&mut waiting, site, lists, bound)? {
                return Ok(Some(site));
            }
        }
        Ok(None)
    }

    /// The nearest use in a body after a point.
    pub(crate) fn after(&mut self, from: Site, bound: Bound) -> Result<Option<Site>, AllocError> {
        match self.code.body(from.body) {
            Some(body) => self.walk(from, Lists::After(body.skeleton.next.as_slice()), bound),
            None => Ok(None),
        }
    }

    /// The nearest use in a body before a point.
    pub(crate) fn before(
        &mut self,
        ways: &mut Backwards,
        from: Site,
        bound: Bound,
    ) -> Result<Option<Site>, AllocError> {
        if !self.goes_on_at(from, bound) {
            return Ok(None);
        }
        if let Some(body) = self.code.body(from.body) {
            ways.make(from.body, &body.skeleton)?;
        }
        self.walk(from, Lists::Before(ways.of(from.body)), bound)
    }

    /// The use at a point that a thread has just made; a function that it called there is looked at later.
    pub(crate) fn at(&mut self, site: Site) -> Result<Option<Site>, AllocError> {
        if self.visit(site)? {
            Ok(Some(site))
        } else {
            Ok(None)
        }
    }

    /// A use in the functions that are called, the nearest of them first, and in those that they call.
    pub(crate) fn in_called(&mut self) -> Result<Option<Site>, AllocError> {
        for index in self.done..MOST_NAMES {
            let Some(function) = self.called.get(index).copied() else {
                return Ok(None);
            };
            self.done = index.saturating_add(1);
            let found = self.in_function(function)?;
            if found.is_some() {
                return Ok(found);
            }
        }
        Ok(None)
    }

    /// A use in the body of a function in force.
    fn in_function(&mut self, function: NameId) -> Result<Option<Site>, AllocError> {
        let version = self.code.version();
        match self.code.body_of(function, version) {
            Some(body) => self.in_body(body, version),
            None => Ok(None),
        }
    }

    /// The first use in a body.
    fn in_body(&mut self, body: usize, version: u32) -> Result<Option<Site>, AllocError> {
        let points = match self.code.body(body) {
            Some(found) => found.skeleton.points.len(),
            None => 0,
        };
        for point in 0..points {
            let site = Site {
                body,
                point,
                version,
            };
            if self.visit(site)? {
                return Ok(Some(site));
            }
        }
        Ok(None)
    }
}
