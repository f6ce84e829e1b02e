// 64-bit sets of actions: the bit worth 2^b says that the set has action b.
#![tactic(auto)]

ghost use Rattle.std.specs.Prelude.{◌≡◌, true, false, ◌↔◌, ℕ, ◌<◌, ◌≤◌};
ghost use Rattle.rules.specs.Numbers.{most_actions};
ghost use Rattle.rules.specs.Image.{has};
ghost use Rattle.sets.specs.Sets.{members, Subset, Below, Lowest, Highest, One, AllBelow, With, Without};

// Whether s has b.
pub fn member(s: u64, b: usize) -> bool
    requires { b < most_actions }
    ensures { result ≡ has s b }
{
    (s >> b) % 2 == 1
}

// The set of b alone.
pub fn one(b: usize) -> u64
    requires { b < most_actions }
    ensures { One b result }
{
    1u64 << b
}

// The set of all actions below n.
pub fn all_below(n: usize) -> u64
    requires { n ≤ most_actions }
    ensures { AllBelow n result }
{
    if n == 64 {
        return 18_446_744_073_709_551_615;
    }
    one(n) - 1
}

// The members of s, and b.
pub fn with(s: u64, b: usize) -> u64
    requires { b < most_actions }
    ensures { With s b result }
{
    s | one(b)
}

// The members of s but for b.
pub fn without(s: u64, b: usize) -> u64
    requires { b < most_actions }
    ensures { Without s b result }
{
    s & !one(b)
}

// The lowest member of a set that has one.
pub fn lowest(s: u64) -> usize
    requires { 0 < s }
    ensures { Lowest s result }
{
    u64::trailing_zeros(s) as usize
}

// The highest member of a set that has one.
pub fn highest(s: u64) -> usize
    requires { 0 < s }
    ensures { Highest s result }
{
    63 - u64::leading_zeros(s) as usize
}

// The highest member of a set that has one, or the lowest.
pub fn end(s: u64, high: bool) -> usize
    requires { 0 < s }
    ensures { (high ≡ true → Highest s result) × (high ≡ false → Lowest s result) }
{
    if high {
        return highest(s);
    }
    lowest(s)
}

// The members of a set above the lowest.
pub fn above_lowest(s: u64) -> u64
    requires { 0 < s }
    ensures { (b : ℕ) → Lowest s b → Without s b result }
{
    s & (s - 1)
}

// How many members s has.
pub fn count(s: u64) -> u32
    ensures { result ≡ members most_actions s }
{
    u64::count_ones(s)
}

// Whether each member of a is one of b.
pub fn subset(a: u64, b: u64) -> bool
    ensures { (result ≡ true) ↔ Subset a b }
{
    a & b == a
}

// Whether each member of s is below n. Of such sets the one with all of them is the greatest number.
pub fn below(s: u64, n: usize) -> bool
    requires { n ≤ most_actions }
    ensures { (result ≡ true) ↔ Below s n }
{
    s <= all_below(n)
}
