// The ranges of the numbers that an entry and the settings are made of.
ghost use Rattle.std.specs.Prelude.{◌≡◌};
ghost use Rattle.entry.specs.Numbers.{one_or_two, from1to};

// Sides, lives, allocations and option types are numbered 1 and 2.
pub(crate) fn one_or_two(n: u32) -> bool
    ensures { result ≡ one_or_two n }
{
    n == 1 || n == 2
}

// Prices and sizes run from 1 to the most that is allowed.
pub(crate) fn from_one_to(most: u32, n: u32) -> bool
    ensures { result ≡ from1to most n }
{
    1 <= n && n <= most
}
