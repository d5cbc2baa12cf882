//! Bodies by function and version.
use code_store::StoredBody;
use name_sets::{MOST_NAMES, NameId, Names};
use patch_build::{MOST_VERSIONS, Versions};
use skeletons::{CheckInKind, Point, PointKind};
use std::alloc::{AllocError, Global};

/// The bodies of all versions, each found by its function and a version.
#[derive(Drop)]
pub(crate) struct Code<'a> {
    names: &'a Names,
    bodies: &'a [StoredBody],
    version: u32,
    chains: Chains,
}

/// How bodies are found, by their places in the store.
#[derive(Drop)]
struct Chains {
    /// For each function its last body.
    last: Vec<Option<usize>>,
    /// For each body that of its function before it.
    earlier: Vec<Option<usize>>,
    /// For each body how many points come before its first one, over all bodies.
    first: Vec<usize>,
    /// How many points all bodies have.
    points: usize,
}

/// A point of a body, and the version by whose text it is shown.
#[derive(Clone, Copy)]
pub(crate) struct Site {
    pub body: usize,
    pub point: usize,
    pub version: u32,
}

/// Adds a body to those that are found.
fn add_body(chains: &mut Chains, place: usize, body: &StoredBody) -> Result<(), AllocError> {
    let function = body.function.index();
    chains.earlier.push(place_in(&chains.last, function))?;
    chains.first.push(chains.points)?;
    let points = body.skeleton.points.len();
    chains.points = chains.points.saturating_add(points);
    if function < chains.last.len() {
        chains.last[function] = Some(place);
    }
    Ok(())
}

/// What a list has at a place.
fn place_in(list: &[Option<usize>], place: usize) -> Option<usize> {
    match list.get(place) {
        Some(found) => *found,
        None => None,
    }
}

/// The chains of bodies.
fn chains_of(alloc: Global, bodies: &[StoredBody]) -> Result<Chains, AllocError> {
    let mut chains = Chains {
        last: vec![in alloc; None; MOST_NAMES]?,
        earlier: Vec::new(alloc),
        first: Vec::new(alloc),
        points: 0,
    };
    for place in 0..bodies.len() {
        add_body(&mut chains, place, &bodies[place])?;
    }
    Ok(chains)
}

impl<'a> Code<'a> {
    /// The bodies of the versions so far.
    pub(crate) fn of(alloc: Global, versions: Versions<'a>) -> Result<Code<'a>, AllocError> {
        let bodies = versions.store.bodies();
        Ok(Code {
            names: versions.names,
            bodies,
            version: versions.count,
            chains: chains_of(alloc, bodies)?,
        })
    }

    /// The version in force.
    pub(crate) fn version(&self) -> u32 {
        self.version
    }

    /// How many bodies there are.
    pub(crate) fn count(&self) -> usize {
        self.bodies.len()
    }

    /// How many points all bodies have.
    pub(crate) fn points(&self) -> usize {
        self.chains.points
    }

    /// The number of a point among those of all bodies.
    pub(crate) fn number(&self, site: Site) -> usize {
        match self.chains.first.get(site.body) {
            Some(first) => first.saturating_add(site.point),
            None => usize::MAX,
        }
    }

    /// The id of a name.
    pub(crate) fn id(&self, name: &str) -> Option<NameId> {
        self.names.find(name)
    }

    /// The name of an id; of one that there isn't, nothing.
    pub(crate) fn name(&self, id: NameId) -> &'a str {
        if id.index() < self.names.len() {
            self.names.text(id)
        } else {
            ""
        }
    }

    /// A body by its place.
    pub(crate) fn body(&self, place: usize) -> Option<&'a StoredBody> {
        self.bodies.get(place)
    }

    /// The place of the body of a function in force in a version.
    pub(crate) fn body_of(&self, function: NameId, version: u32) -> Option<usize> {
        let mut found = place_in(&self.chains.last, function.index());
        for _ in 0..MOST_VERSIONS {
            let place = found?;
            if self.body(place)?.generation <= version {
                return Some(place);
            }
            found = place_in(&self.chains.earlier, place);
        }
        None
    }

    /// A point.
    pub(crate) fn point(&self, site: Site) -> Option<Point> {
        self.body(site.body)?
            .skeleton
            .points
            .get(site.point)
            .copied()
    }

    /// A point of a function's body in force in a version.
    pub(crate) fn site(&self, function: &str, version: u32, point: u32) -> Option<Site> {
        let body = self.body_of(self.id(function)?, version)?;
        Some(Site {
            body,
            point: point as usize,
            version,
        })
    }

    /// The check-in to which a thread came that last stopped at a point, and its kind: the first one from there on.
    pub(crate) fn check_in_from(&self, site: Site) -> Option<(Site, CheckInKind)> {
        let points = self.body(site.body)?.skeleton.points.as_slice();
        for point in site.point..points.len() {
            if let PointKind::CheckIn(kind) = points[point].kind {
                return Some((Site { point, ..site }, kind));
            }
        }
        None
    }
}
