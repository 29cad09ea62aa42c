// What the calls answer the till's C program, in document 01's numbers: the structs that c/claims.h declares.
//
// In each the refusal's number comes first: 0 where the call is not turned away, and the numbers behind it are 0 where it is. The contracts
// of the calls speak of these structs, and crate `numbers` makes one of what a call answers. This layer has no code of its own.
#![tactic(auto)]

// Fits and rank under either terms: 1 where the selection fits and 0 where not, and its rank.
#[repr(C)]
#[derive(Clone, Copy)]
pub struct FitsAndRankAnswer {
    pub refusal: u32,
    pub fits: u32,
    pub rank: u32,
}

// How many further claims like the row would fit.
#[repr(C)]
#[derive(Clone, Copy)]
pub struct SparePlacesAnswer {
    pub refusal: u32,
    pub places: u32,
}

// How many kept rows are earned, how many rows are kept, and the sheet's total.
#[repr(C)]
#[derive(Clone, Copy)]
pub struct SettleAnswer {
    pub refusal: u32,
    pub earned: u64,
    pub kept: u64,
    pub total: u64,
}

// The same under the second terms: how many rows of each kind are kept, how many in all, and the sheet's total.
#[repr(C)]
#[derive(Clone, Copy)]
pub struct SettleKindsAnswer {
    pub refusal: u32,
    pub kind0: u64,
    pub kind1: u64,
    pub kind2: u64,
    pub kind3: u64,
    pub kept: u64,
    pub total: u64,
}

// The files of several counters settled together: what settling one file tells, with the place of the file at fault, from 0, where a fault of
// a file is told. Else the place is 0.
#[repr(C)]
#[derive(Clone, Copy)]
pub struct SettleJoinedAnswer {
    pub refusal: u32,
    pub file: u32,
    pub earned: u64,
    pub kept: u64,
    pub total: u64,
}

// The slip, the canonical form and the codes: how many bytes were written.
#[repr(C)]
#[derive(Clone, Copy)]
pub struct WriteAnswer {
    pub refusal: u32,
    pub length: u64,
}

// How many of the rows that are in count in a group.
#[repr(C)]
#[derive(Clone, Copy)]
pub struct TallyCountAnswer {
    pub refusal: u32,
    pub count: u32,
}
