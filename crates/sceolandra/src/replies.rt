// What the calls reply to C, made of what the crates below give: a number, 0 for done, else document 01's refusal, and one more.
// A number with a value beside it, five times, each field by its own name: C takes these structs, and no Result.
ghost use Rattle.std.specs.Prelude.{◌≡◌, MatchResult};
ghost use Rattle.paper.specs.Refusals.{refusal_number};
ghost use Rattle.rules.specs.Numbers.{rule_number};

use paper::{Fault, Refusal};
use rules::{Rule, Stopped};

// 0 and 0, or a refusal's number and the position of the fault.
#[repr(C)]
#[derive(Clone, Copy)]
pub struct LoadReply {
    pub number: usize,
    pub position: usize,
}

impl From<Result<(), Fault>> for LoadReply {
    ghost from_gives = { λ loaded reply. MatchResult loaded (λ _. (reply.number ≡ 0) × (reply.position ≡ 0)) (λ fault. (reply.number ≡ refusal_number fault.refusal) × (reply.position ≡ fault.at)) };

    fn from(loaded: Result<(), Fault>) -> LoadReply {
        match loaded {
            Ok(()) => LoadReply {
                number: 0,
                position: 0,
            },
            Err(fault) => LoadReply {
                number: usize::from(fault.refusal),
                position: fault.at,
            },
        }
    }
}

// 0 and the rule's number, or a refusal's number and 0.
#[repr(C)]
#[derive(Clone, Copy)]
pub struct StepReply {
    pub number: usize,
    pub rule: usize,
}

impl From<Result<Rule, Refusal>> for StepReply {
    ghost from_gives = { λ taken reply. MatchResult taken (λ rule. (reply.number ≡ 0) × (reply.rule ≡ rule_number rule)) (λ refusal. (reply.number ≡ refusal_number refusal) × (reply.rule ≡ 0)) };

    fn from(taken: Result<Rule, Refusal>) -> StepReply {
        match taken {
            Ok(rule) => StepReply {
                number: 0,
                rule: usize::from(rule),
            },
            Err(refusal) => StepReply {
                number: usize::from(refusal),
                rule: 0,
            },
        }
    }
}

// 0 and how many places there were, or the first refusal's number and how many places were done before it.
#[repr(C)]
#[derive(Clone, Copy)]
pub struct ListReply {
    pub number: usize,
    pub done: usize,
}

impl From<Result<usize, Stopped>> for ListReply {
    ghost from_gives = { λ listed reply. MatchResult listed (λ done. (reply.number ≡ 0) × (reply.done ≡ done)) (λ stopped. (reply.number ≡ refusal_number stopped.refusal) × (reply.done ≡ stopped.done)) };

    fn from(listed: Result<usize, Stopped>) -> ListReply {
        match listed {
            Ok(done) => ListReply { number: 0, done },
            Err(stopped) => ListReply {
                number: usize::from(stopped.refusal),
                done: stopped.done,
            },
        }
    }
}

// 0, or a refusal's number.
#[repr(C)]
#[derive(Clone, Copy)]
pub struct MapReply {
    pub number: usize,
}

impl From<Result<(), Refusal>> for MapReply {
    ghost from_gives = { λ mapped reply. MatchResult mapped (λ _. reply.number ≡ 0) (λ refusal. reply.number ≡ refusal_number refusal) };

    fn from(mapped: Result<(), Refusal>) -> MapReply {
        match mapped {
            Ok(()) => MapReply { number: 0 },
            Err(refusal) => MapReply {
                number: usize::from(refusal),
            },
        }
    }
}

// 0 and the file's length, or a refusal's number and 0.
#[repr(C)]
#[derive(Clone, Copy)]
pub struct WriteReply {
    pub number: usize,
    pub length: usize,
}

impl From<Result<usize, Refusal>> for WriteReply {
    ghost from_gives = { λ written reply. MatchResult written (λ length. (reply.number ≡ 0) × (reply.length ≡ length)) (λ refusal. (reply.number ≡ refusal_number refusal) × (reply.length ≡ 0)) };

    fn from(written: Result<usize, Refusal>) -> WriteReply {
        match written {
            Ok(length) => WriteReply { number: 0, length },
            Err(refusal) => WriteReply {
                number: usize::from(refusal),
                length: 0,
            },
        }
    }
}
