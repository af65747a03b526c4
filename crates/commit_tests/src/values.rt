// Roots and records that tests name.
use commit_order::record_spans::Span;
use commit_order::storm_values::Root;

pub const ROOT_1_1: Root = Root {
    txid: 1,
    attempt: 1,
};

pub const ROOT_1_2: Root = Root {
    txid: 1,
    attempt: 2,
};

pub const ROOT_2_1: Root = Root {
    txid: 2,
    attempt: 1,
};

pub const ROOT_2_2: Root = Root {
    txid: 2,
    attempt: 2,
};

pub const ROOT_2_3: Root = Root {
    txid: 2,
    attempt: 3,
};

pub const ROOT_3_1: Root = Root {
    txid: 3,
    attempt: 1,
};

pub const ROOT_3_2: Root = Root {
    txid: 3,
    attempt: 2,
};

pub const ROOT_4_1: Root = Root {
    txid: 4,
    attempt: 1,
};

pub const RECORD_1: &[Span] = &[Span { first: 1, last: 1 }];

pub const RECORD_2: &[Span] = &[Span { first: 2, last: 2 }];

pub const RECORD_3: &[Span] = &[Span { first: 3, last: 3 }];

pub const RECORD_4: &[Span] = &[Span { first: 4, last: 4 }];

pub const RECORDS_1_2: &[Span] = &[Span { first: 1, last: 2 }];

pub const RECORDS_3_4: &[Span] = &[Span { first: 3, last: 4 }];

pub const RECORDS_1_AND_3: &[Span] = &[Span { first: 1, last: 1 }, Span { first: 3, last: 3 }];

pub const RECORDS_2_AND_4: &[Span] = &[Span { first: 2, last: 2 }, Span { first: 4, last: 4 }];
