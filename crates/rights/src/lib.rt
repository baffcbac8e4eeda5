// A set of rights in one number: bit i, worth 2 to the power i, is right i.
#![tactic(auto)]

ghost use Rattle.std.specs.Prelude.{◌≡◌, ◌<◌, ◌≤◌, ◌^◌, ltb};
ghost use Rattle.rights.specs.Rights.{width, has, insert, delete, within};

pub mod bytes;

// As wide as the rights of a cell need: the type of a cell, and of what a right carries.
pub type Set = u16;

// No right.
pub const NONE: Set = 0;

// Right i is in the set.
pub fn holds(set: Set, i: u8) -> bool
    requires { i < width }
    ensures { result ≡ has set i }
{
    (set >> i) % 2 == 1
}

pub fn with_right(set: Set, i: u8) -> Set
    requires { i < width }
    ensures { result ≡ insert set i }
{
    set | ((1 as Set) << i)
}

pub fn without_right(set: Set, i: u8) -> Set
    requires { i < width }
    ensures { result ≡ delete set i }
{
    let bit = (1 as Set) << i;
    (set | bit) ^ bit
}

// No right from g on is in the set.
pub fn none_from(set: Set, g: u8) -> bool
    requires { g ≤ width }
    ensures { result ≡ within set g }
{
    (set as u32) < (1u32 << g)
}
