// Where the rings of a sheet come from: of a set the rule by which it is chosen, and of rings of one's own where their lines begin. No public calls.

#![tactic(auto)]

ghost use Rattle.std.specs.Prelude.{◌≤◌, ◌≡◌, length};
ghost use Rattle.sheet_print_spec.specs.Prints.{rule_of};
ghost use Rattle.sheet_source_inner.specs.Says.{is_own, BehindLine};

use guard_spec::Rule;
use sheet_spec::Source;

// Whether they are one's own.
pub fn is_own(s: Source) -> bool
    ensures { result ≡ is_own s }
{
    matches!(s, Source::Own)
}

// The rule of a set.
pub fn rule_of(s: Source) -> Rule
    ensures { result ≡ rule_of s }
{
    match s {
        Source::Guarded => Rule::Guarded,
        Source::Plain | Source::Own => Rule::Plain,
    }
}

// Where what stands behind the line begins that ends at e.
pub fn behind(s: &[u8], e: usize) -> usize
    requires { e ≤ length s.now }
    ensures { BehindLine s.now e result }
{
    s.len().min(e + 1)
}
