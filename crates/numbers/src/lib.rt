// What each call answers, in the numbers that C takes: one function for each type that a call answers. It gives the struct of crate
// `answers` with document 01's number and values: the refusal's number and zeros, or 0 and what was found.
#![tactic(auto)]

ghost use Rattle.std.specs.Prelude.{◌≡◌, ◌≤◌, ◌<◌};
ghost use Rattle.theory.specs.Bounds.{max_rows, max_limit};
ghost use Rattle.limits.specs.Answers.{ranked_numbers};
ghost use Rattle.spare.specs.Spare.{spare_numbers};
ghost use Rattle.closing.specs.Settle.{settled_numbers};
ghost use Rattle.kinds.specs.Settle.{settled_kinds_numbers};
ghost use Rattle.members.specs.Members.{most_files};
ghost use Rattle.joined.specs.Call.{joined_numbers};
ghost use Rattle.refusal.specs.Writing.{written_numbers};

use answers::{
    FitsAndRankAnswer, SettleAnswer, SettleJoinedAnswer, SettleKindsAnswer, SparePlacesAnswer,
    WriteAnswer,
};
use closing::Totals;
use kinds::KindTotals;
use members::Fault;
use refusal::{Reason, number};
use sides::Found;

// The numbers for an answer of fits and rank.
pub fn ranked_numbers(answer: Result<Found, Reason>) -> FitsAndRankAnswer
    requires { (ranked_numbers answer).rank ≤ max_rows }
    ensures { result ≡ ranked_numbers answer }
{
    match answer {
        Ok(found) => FitsAndRankAnswer {
            refusal: 0,
            fits: found.fits as u32,
            rank: found.rank as u32,
        },
        Err(why) => FitsAndRankAnswer {
            refusal: number(why),
            fits: 0,
            rank: 0,
        },
    }
}

// The numbers for an answer of spare places.
pub fn spare_numbers(answer: Result<usize, Reason>) -> SparePlacesAnswer
    requires { (spare_numbers answer).places ≤ max_limit }
    ensures { result ≡ spare_numbers answer }
{
    match answer {
        Ok(places) => SparePlacesAnswer {
            refusal: 0,
            places: places as u32,
        },
        Err(why) => SparePlacesAnswer {
            refusal: number(why),
            places: 0,
        },
    }
}

// The numbers for an answer of settle.
pub fn settled_numbers(answer: Result<Totals, Reason>) -> SettleAnswer
    ensures { result ≡ settled_numbers answer }
{
    match answer {
        Ok(totals) => SettleAnswer {
            refusal: 0,
            earned: totals.earned as u64,
            kept: totals.kept as u64,
            total: totals.total as u64,
        },
        Err(why) => SettleAnswer {
            refusal: number(why),
            earned: 0,
            kept: 0,
            total: 0,
        },
    }
}

// The numbers for an answer of settle under the second terms.
pub fn settled_kinds_numbers(answer: Result<KindTotals, Reason>) -> SettleKindsAnswer
    ensures { result ≡ settled_kinds_numbers answer }
{
    match answer {
        Ok(totals) => SettleKindsAnswer {
            refusal: 0,
            kind0: totals.kind0 as u64,
            kind1: totals.kind1 as u64,
            kind2: totals.kind2 as u64,
            kind3: totals.kind3 as u64,
            kept: totals.kept as u64,
            total: totals.total as u64,
        },
        Err(why) => SettleKindsAnswer {
            refusal: number(why),
            kind0: 0,
            kind1: 0,
            kind2: 0,
            kind3: 0,
            kept: 0,
            total: 0,
        },
    }
}

// The numbers for an answer of settling several counters together.
pub fn joined_numbers(answer: Result<Totals, Fault>) -> SettleJoinedAnswer
    requires { (joined_numbers answer).file < most_files }
    ensures { result ≡ joined_numbers answer }
{
    match answer {
        Ok(day) => SettleJoinedAnswer {
            refusal: 0,
            file: 0,
            earned: day.earned as u64,
            kept: day.kept as u64,
            total: day.total as u64,
        },
        Err(Fault::Member { file, refusal }) => SettleJoinedAnswer {
            refusal: number(Reason::File(refusal)),
            file: file as u32,
            earned: 0,
            kept: 0,
            total: 0,
        },
        Err(Fault::Whole(why)) => SettleJoinedAnswer {
            refusal: number(why),
            file: 0,
            earned: 0,
            kept: 0,
            total: 0,
        },
    }
}

// The numbers for an answer of a call that writes into a lent buffer.
pub fn written_numbers(answer: Result<usize, Reason>) -> WriteAnswer
    ensures { result ≡ written_numbers answer }
{
    match answer {
        Ok(length) => WriteAnswer {
            refusal: 0,
            length: length as u64,
        },
        Err(why) => WriteAnswer {
            refusal: number(why),
            length: 0,
        },
    }
}
