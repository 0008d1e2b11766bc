//! One field of a match: a prefix of an address, or a value that may be constrained.
#![tactic(auto)]

ghost use Rattle.std.specs.Prelude.{◌≡◌};
ghost use Rattle.field.specs.Prefix.{address_bits, in_prefix, right_prefix, prefixes_meet, covers};
ghost use Rattle.field.specs.Longer.{longer};
ghost use Rattle.field.specs.Value.{meets_value, values_meet, common_value, right_value};

/// How many bits an address has.
pub const ADDRESS_BITS: u32 = 32;

/// The addresses that agree with one in their first bits, as many as the length says. A length beyond 32 counts as 32,
/// except where two lengths are compared.
#[derive(Clone, Copy, PartialEq, Eq)]
pub struct Prefix {
    pub address: u32,
    pub length: u32,
}

impl Prefix {
    /// Whether an address lies in the prefix: the first bit in which the two differ, if there is one, stands beyond the
    /// length.
    pub fn contains(self, address: u32) -> bool
        ensures { result ≡ in_prefix address_bits self.address self.length address }
    {
        u32::min(self.length, ADDRESS_BITS) <= u32::leading_zeros(self.address ^ address)
    }

    /// Whether the prefix is right: a length of at most 32, and 0 in the bits beyond it, so that the address has no
    /// more bits up to its last 1.
    pub fn is_right(self) -> bool
        ensures { result ≡ right_prefix address_bits self.address self.length }
    {
        (ADDRESS_BITS - u32::trailing_zeros(self.address) <= self.length)
            & (self.length <= ADDRESS_BITS)
    }

    /// Whether two prefixes have an address in common.
    pub fn meets(self, other: Prefix) -> bool
        ensures { result ≡ prefixes_meet address_bits self.address self.length other.address other.length }
    {
        let shorter = Prefix {
            length: u32::min(self.length, other.length),
            ..self
        };
        shorter.contains(other.address)
    }

    /// Whether the prefix is no longer than another, and every address of that lies in it. Lengths beyond 32 are
    /// compared as they are.
    pub fn covers(self, other: Prefix) -> bool
        ensures { result ≡ covers address_bits self.address self.length other.address other.length }
    {
        (self.length <= other.length) & self.contains(other.address)
    }

    /// The longer of two prefixes.
    pub fn longer(self, other: Prefix) -> Prefix
        ensures { result ≡ longer self other }
    {
        if self.length <= other.length {
            other
        } else {
            self
        }
    }
}

// A value of a match and the flag that says whether it is constrained stay two parameters: an Option makes the test of
// whether two matches overlap up to 3.3 times slower, a struct of the two the numbering slower than it is to be.

/// Whether a number meets a value, which is constrained where `on` says so.
pub fn meets_value(on: bool, value: u32, number: u32) -> bool
    ensures { result ≡ meets_value on value number }
{
    !on | (value == number)
}

/// Whether some number meets both of two values, each constrained where the flag before it says so.
pub fn values_meet(on: bool, value: u32, other_on: bool, other: u32) -> bool
    ensures { result ≡ values_meet on value other_on other }
{
    !on | (!other_on | (other == value))
}

/// The value that two such values that meet are together: the first if it is constrained, else the second.
pub fn common_value(on: bool, value: u32, other: u32) -> u32
    ensures { result ≡ common_value on value other }
{
    if on { value } else { other }
}

/// Whether a value is right: below the limit, and 0 where it is unconstrained.
pub fn right_value(on: bool, limit: u32, value: u32) -> bool
    ensures { result ≡ right_value on limit value }
{
    (value < limit) & (on | (value == 0))
}
