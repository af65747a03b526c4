//! The rule of a pair of a writer and its reader.
use crate::change::Change;
use crate::store::Store;
use crate::view::View;
use atomic_table::{Join, Split};
use crossbeam_utils::rule::{Outcome, Protocol};
use left_right::reader::Reader;
use left_right::writer::Writer;

/// What is shown has the changes of some commits, and what each has seen or was told of is a prefix
/// of these.
pub struct Published;

impl Protocol<Store, View> for Published {
    ghost use Rattle.state_reader.specs.Views.{newcomer};
    ghost use Rattle.state_reader.specs.Rule.{Keeps};

    ghost holds = { Keeps };

    ghost first = { newcomer };
}

/// What is seen afterwards.
pub(crate) struct Sees;

impl Outcome<Store, View> for Sees {
    ghost use Rattle.state_reader.specs.Rule.{Shows};

    ghost then = { Shows };
}

/// What the writer knows, for a reader.
pub(crate) struct Notes;

impl Split<View> for Notes {
    ghost left = { λ v. v };

    ghost right = { λ v. v };
}

impl Join<View> for Notes {
    ghost use Rattle.state_reader.specs.Views.{newcomer, informed};

    ghost both = { informed };

    ghost spent = { newcomer };
}

pub type StoreReader = Reader<Store, View, Published>;

pub type StoreWriter = Writer<Store, Change, View, Published>;
