// The numbers that a record states.
ghost use Rattle.std.specs.Prelude.{◌≤◌, ℤ, pos, SomeIff, nat_abs, ◌≤ℤ◌};

// The number as it is; `None` below 0 and above the greatest.
pub fn within(stated: i32, most: u32) -> Option<u32>
    ensures { SomeIff result ((pos 0 ≤ℤ stated) × (stated ≤ℤ pos most)) (nat_abs stated) }
{
    u32::try_from(stated).ok().filter(|n| *n <= most)
}
