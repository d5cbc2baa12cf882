ghost use Rattle.std.specs.Prelude.{◌≡◌, option_map};
ghost use Rattle.c_expr_types.specs.Faults.{is_before, sooner as sooner_value, number_of, unless, first};
ghost use Rattle.c_expr_types.specs.declared.fault.TypeKind.TheVariants.{WrongType};
ghost use Rattle.patch_faults.specs.TransformFaults.{of_expression, place_of};
ghost use Rattle.transformer_types.specs.Alone.{sooner};
ghost use Rattle.transformer_types.specs.Views.{fault_seen};

use patch_faults::TransformFault;

/// What is wrong with a value in a transformer. A place is a byte of the newer text, counted from 0.
#[derive(Clone, Copy)]
pub enum ValueFault {
    /// An expression at the place is of a wrong type.
    WrongType(usize),
    /// `old` has no field of the name at the place.
    UnknownField(usize),
}

impl ValueFault {
    fn place(self) -> usize
        ensures { result ≡ (fault_seen self).place }
    {
        match self {
            ValueFault::WrongType(place) => place,
            ValueFault::UnknownField(place) => place,
        }
    }

    /// The number that decides between two faults at one place.
    fn number(self) -> u8
        ensures { result ≡ number_of (fault_seen self).kind }
    {
        match self {
            ValueFault::WrongType(_) => 3,
            ValueFault::UnknownField(_) => 11,
        }
    }

    /// Whether it is reported rather than the other.
    fn is_before(self, other: ValueFault) -> bool
        ensures { result ≡ is_before (fault_seen self) (fault_seen other) }
    {
        self.place() < other.place()
            || (self.place() == other.place() && self.number() < other.number())
    }

    /// The fault of the transformer.
    pub(crate) fn reported(self) -> TransformFault
        ensures { result ≡ of_expression (fault_seen self) }
    {
        match self {
            ValueFault::WrongType(place) => TransformFault::Wrong(place),
            ValueFault::UnknownField(place) => TransformFault::OldField(place),
        }
    }
}

/// The first of two faults of one value that may be there.
pub(crate) fn first_of_value(a: Option<ValueFault>, b: Option<ValueFault>) -> Option<ValueFault>
    ensures { option_map fault_seen result ≡ sooner_value (option_map fault_seen a) (option_map fault_seen b) }
{
    match (a, b) {
        (Some(a), Some(b)) => Some(if b.is_before(a) { b } else { a }),
        (Some(a), None) => Some(a),
        (None, b) => b,
    }
}

/// The fault of an expression at a place whose type is to be right.
pub(crate) fn wrong_unless(holds: bool, place: usize) -> Option<ValueFault>
    ensures { option_map fault_seen result ≡ first (unless holds WrongType place) }
{
    if holds {
        None
    } else {
        Some(ValueFault::WrongType(place))
    }
}

/// Where a fault is.
fn place_of(fault: TransformFault) -> usize
    ensures { result ≡ place_of fault }
{
    match fault {
        TransformFault::NotChanged(place) => place,
        TransformFault::OldField(place) => place,
        TransformFault::Wrong(place) => place,
        TransformFault::Memory => 0,
    }
}

/// The first of two faults that may be there, by place.
pub(crate) fn sooner(a: Option<TransformFault>, b: Option<TransformFault>) -> Option<TransformFault>
    ensures { result ≡ sooner a b }
{
    match (a, b) {
        (Some(a), Some(b)) => Some(if place_of(b) < place_of(a) { b } else { a }),
        (Some(a), None) => Some(a),
        (None, b) => b,
    }
}
