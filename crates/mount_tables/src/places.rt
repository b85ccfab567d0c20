// The lower of two places.
ghost use Rattle.std.specs.Prelude.{◌≡◌};
ghost use Rattle.mount_tables.specs.Reading.{lower_of};

// The lower of two places.
pub fn lower(a: Option<u32>, b: Option<u32>) -> Option<u32>
    ensures { result ≡ lower_of a b }
{
    match (a, b) {
        (None, b) => b,
        (Some(a), None) => Some(a),
        (Some(a), Some(b)) => Some(a.min(b)),
    }
}
