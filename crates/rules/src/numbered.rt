// The ten rules by document 01's numbers, as in specs/Numbers and under its names.
ghost use Rattle.std.specs.Prelude.{◌≡◌};
ghost use Rattle.rules.specs.Numbers.{rule_number};

// The rule that an item was taken by. A statement has 1 to 7, an ask 8 or 9, a news 10.
#[derive(Clone, Copy, Debug, PartialEq, Eq)]
pub enum Rule {
    Interchange = 1,
    Memo = 2,
    Dereference = 3,
    Identify = 4,
    Conflict = 5,
    Decompose = 6,
    Initiate = 7,
    Win = 8,
    Lose = 9,
    Arrive = 10,
}

// The number that a caller is told.
impl From<Rule> for usize {
    ghost from_gives = { λ rule number. number ≡ rule_number rule };

    fn from(rule: Rule) -> usize {
        rule as usize
    }
}
