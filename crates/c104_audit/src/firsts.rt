//! The first of numbers.
ghost use Rattle.std.specs.Prelude.{◌≡◌};
ghost use Rattle.c104_audit.specs.Firsts.{lower_of};

/// The lower of two numbers, if there are any.
pub fn lower(one: Option<usize>, other: Option<usize>) -> Option<usize>
    ensures { result ≡ lower_of one other }
{
    match (one, other) {
        (Some(one), Some(other)) => { if one <= other { Some(one) } else { Some(other) } }
        (Some(one), None) => Some(one),
        (None, other) => other,
    }
}
