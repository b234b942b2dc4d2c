//! Classes of room.
ghost use Rattle.std.specs.Prelude.{◌≤◌, ◌^◌, ◌≡◌};
ghost use Rattle.span_pool.specs.Class.{IsClassOf};

/// How many classes there are: class `k` has room for 2 to the power `k` items, `k` from 0 to 62.
pub(crate) const CLASSES: u8 = 63;

/// The least class whose room is at least `len`.
pub fn class_of(len: u64) -> u8
    requires { len ≤ 2 ^ 62 }
    ensures { IsClassOf len result }
{
    if len <= 1 {
        return 0;
    }
    (len - 1).ilog2() as u8 + 1
}

/// How many items a span of the class has room for.
pub(crate) fn room_of(class: u8) -> usize
    requires { class ≤ 62 }
    ensures { result ≡ 2 ^ class }
{
    1 << class
}
