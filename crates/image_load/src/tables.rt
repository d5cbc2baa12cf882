//! The numbers of names in a list.
ghost use Rattle.std.specs.Prelude.{◌≡◌, [], IfErr, IfOk, List, OnOk, not, option_copied};
ghost use Rattle.std.specs.Option.{option_to_list};
ghost use Rattle.name_sets.specs.NameLists.{is_among};
ghost use Rattle.c_tree.specs.BareExpr.{Bytes};
ghost use Rattle.code_image.specs.Images.{with_more, with_new};
ghost use Rattle.std.specs.Prelude.{Contains};
ghost use Rattle.image_load.specs.declared.fault.LoadFault.TheVariants.{Memory};
ghost use Rattle.image_load.specs.Numbering.{HasNumbers, IsNumber, IsTable};

use crate::fault::LoadFault;
use source_programs::Places;
use std::alloc::{AllocError, Global};

/// Names, each once, with their numbers, which are their places.
#[derive(Drop)]
pub(crate) struct NameTable {
    pub places: Places,
    pub names: Vec<String>,
}

impl NameTable {
    /// No names. It takes no memory yet.
    pub fn new(alloc: Global) -> NameTable
        ensures { IsTable [] result }
    {
        NameTable {
            places: Places::new(alloc),
            names: Vec::new(alloc),
        }
    }

    /// The table has a name: at its end, unless it has it already. Says whether it is new.
    pub fn add(&mut self, alloc: Global, name: &str) -> Result<bool, AllocError>
        ensures added { OnOk result ((names : List Bytes) → IsTable names self.old → IsTable (with_new names name.now) self.new) }
        ensures fresh { IfOk result (λ fresh. (names : List Bytes) → IsTable names self.old → fresh ≡ not (is_among names name.now)) }
    {
        if self.places.find(name).is_some() {
            return Ok(false);
        }
        let owned = String::from_str(alloc, name)?;
        self.places.put(name, self.names.len())?;
        self.names.push(owned)?;
        Ok(true)
    }

    /// The table has a name, if there is one.
    pub fn add_if(&mut self, alloc: Global, name: Option<&str>) -> Result<(), AllocError>
        ensures { OnOk result ((names : List Bytes) → IsTable names self.old
            → IsTable (with_more names (option_to_list (option_copied name.entry))) self.new) }
    {
        if let Some(name) = name {
            self.add(alloc, name)?;
        }
        Ok(())
    }
}

/// The number of a name; a fault where it has none. One of 2^32 or more is reported as out of memory.
pub(crate) fn number(places: &Places, name: &str) -> Result<u32, LoadFault>
    ensures number { IfOk result (λ n. (names : List Bytes) → HasNumbers places.now names → IsNumber names name.now n) }
    ensures fault { IfErr result (λ fault. (names : List Bytes) → HasNumbers places.now names → Contains names name.now → fault ≡ Memory) }
{
    let Some(place) = places.find(name) else {
        return Err(LoadFault::NotAccepted);
    };
    Ok(small(place)?)
}

/// A place as a number of 32 bits. One of 2^32 or more is reported as out of memory.
pub(crate) fn small(place: usize) -> Result<u32, AllocError>
    ensures { IfOk result (λ n. n ≡ place) }
{
    match u32::try_from(place) {
        Ok(number) => Ok(number),
        Err(_) => Err(AllocError),
    }
}
