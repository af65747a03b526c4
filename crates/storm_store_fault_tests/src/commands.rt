// The commands, what they write where nothing fails, and which keys they commit.
use sample_topologies::{COUNTED_SENTENCES, SENTENCES, TABLES_OF_SENTENCES, WORD_COUNT};
use storm_stores::CallKind;
use storm_test_kit::{CHECK, Scene, plain_of, replay_of, run_alone, run_of};

/// How many keys the first and the second batch write to a part. Each key is written in one batch.
#[derive(Clone, Copy)]
pub struct Keys {
    pub first: u64,
    pub second: u64,
}

/// A command over the sentences, or over records of its own, and its text. The state is the
/// component 1, and has two parts.
#[derive(Clone, Copy)]
pub struct Command {
    pub scene: Scene<'static>,
    pub text: &'static str,
    /// The text has lines of attempts.
    pub tells: bool,
    pub parts: [Keys; 2],
}

// Keys go to parts by the last bit of their hash, which is 1 where an even number of their bytes
// are odd. So of the first batch `the`, `cow`, `jumped`, `moon`, `to` and `store` go to the part 0,
// and `over`, `man` and `went` to the part 1; of the second `and`, `seven` and `ago`, and `four`,
// `score` and `years`.
const SENTENCE_KEYS: [Keys; 2] = [
    Keys {
        first: 6,
        second: 3,
    },
    Keys {
        first: 3,
        second: 3,
    },
];

// `w44`, `w33`, `w19`, `w13`, `w39`, `w22` and `w42`; `w49`, `w5`, `w1` and `w36`.
const LOADED_KEYS: [Keys; 2] = [
    Keys {
        first: 7,
        second: 0,
    },
    Keys {
        first: 4,
        second: 0,
    },
];

const NO_KEYS: [Keys; 2] = [
    Keys {
        first: 0,
        second: 0,
    },
    Keys {
        first: 0,
        second: 0,
    },
];

/// A load of two records, of one batch.
pub const LOAD: Scene<'static> = Scene {
    words: &["load", "2", "1"],
    topology: None,
    input: None,
    schedule: None,
};

/// What a load of two records writes.
pub const LOADED: &str = "load 2 records 1 batches 11 keys 12 words\n";

/// Rounds enough for the sentences.
pub const SCHEDULE: &str = "rounds 1000";

/// A run by one worker, and every other command.
pub fn commands() -> [Command; 5] {
    [
        Command {
            scene: run_alone(WORD_COUNT, SENTENCES),
            text: COUNTED_SENTENCES,
            tells: true,
            parts: SENTENCE_KEYS,
        },
        Command {
            scene: replay_of(WORD_COUNT, SENTENCES, SCHEDULE),
            text: COUNTED_SENTENCES,
            tells: true,
            parts: SENTENCE_KEYS,
        },
        Command {
            scene: LOAD,
            text: LOADED,
            tells: false,
            parts: LOADED_KEYS,
        },
        Command {
            scene: plain_of(WORD_COUNT, SENTENCES),
            text: TABLES_OF_SENTENCES,
            tells: false,
            parts: NO_KEYS,
        },
        Command {
            scene: Scene {
                words: &CHECK,
                ..plain_of(WORD_COUNT, SENTENCES)
            },
            text: "valid components 2 tasks 4 weight 2 depth 2\n",
            tells: false,
            parts: NO_KEYS,
        },
    ]
}

/// A run by several workers.
pub fn by_workers() -> Command {
    Command {
        scene: run_of(WORD_COUNT, SENTENCES),
        text: COUNTED_SENTENCES,
        tells: true,
        parts: SENTENCE_KEYS,
    }
}

/// The kinds of calls of a store.
pub const KINDS: [CallKind; 4] = [
    CallKind::Get,
    CallKind::Put,
    CallKind::Count,
    CallKind::KeyAt,
];
