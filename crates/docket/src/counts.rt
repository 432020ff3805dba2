// The five counts of a docket, which always balance.
ghost use Rattle.std.specs.Prelude.{◌≡◌, ◌+◌, ◌≤◌};

#[derive(Clone, Copy, Debug, PartialEq)]
pub struct Counts {
    pub opened: u16,
    pub allowed: u16,
    pub unfinished: u16,
    pub withdrawn: u16,
    pub open: u16,
    ghost balanced: { opened ≡ allowed + unfinished + withdrawn + «open» },
    ghost single: { «open» ≤ 1 },
}
