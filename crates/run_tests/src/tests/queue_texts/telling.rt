//! What worked histories of queues tell of their puts and takes.

use super::super::comparing::same;
use heap_model::Value;
use heap_queue::{PutReply, TakeReply, Told, ToldCall, tell_calls};
use log_merge::check;
use reply_text::read_history;
use std::alloc::Global;
use std::test::Fail;

/// What is told of the history that the text is, which is legal.
fn told_of(alloc: Global, text: &str) -> Result<Vec<ToldCall>, Fail> {
    let history = read_history(alloc, text.as_bytes())?;
    check(alloc, &history)?;
    let entries = history.entries.as_slice();
    Ok(tell_calls(alloc, history.heap, entries)?)
}

// One seat makes the queue, takes, puts 5 and 6, and takes three times.
const ALONE: &str = "history 2 run\nheap 4 0 1 2\n\
    0 new 15 2 = 0.0\n0 set 0 0 15 = was -\n0 set 0 1 15 = was -\n\
    0 get 14 0 0 = object 0.0 at 0:1\n0 get 13 0 1 = object 0.0 at 0:2\n0 get 12 14 1 = nil at -\n0 poll = 0\n\
    0 num 10 5 = ok\n0 new 15 2 = 0.1\n0 set 15 0 10 = was -\n0 get 14 0 1 = object 0.0 at 0:2\n\
    0 get 13 14 1 = nil at -\n0 cas 14 1 13 15 = was -\n0 cas 0 1 14 15 = was 0:2\n0 poll = 0\n\
    0 num 10 6 = ok\n0 new 15 2 = 0.2\n0 set 15 0 10 = was -\n0 get 14 0 1 = object 0.1 at 0:5\n\
    0 get 13 14 1 = nil at -\n0 cas 14 1 13 15 = was -\n0 cas 0 1 14 15 = was 0:5\n0 poll = 0\n\
    0 get 14 0 0 = object 0.0 at 0:1\n0 get 13 0 1 = object 0.2 at 0:8\n0 get 12 14 1 = object 0.1 at 0:4\n\
    0 same 14 13 = no\n0 get 11 12 0 = number 5 at 0:3\n0 cas 0 0 14 12 = was 0:1\n0 copy 9 11 = ok\n0 poll = 0\n\
    0 get 14 0 0 = object 0.1 at 0:9\n0 get 13 0 1 = object 0.2 at 0:8\n0 get 12 14 1 = object 0.2 at 0:7\n\
    0 same 14 13 = no\n0 get 11 12 0 = number 6 at 0:6\n0 cas 0 0 14 12 = was 0:9\n0 copy 9 11 = ok\n0 poll = 0\n\
    0 get 14 0 0 = object 0.2 at 0:10\n0 get 13 0 1 = object 0.2 at 0:8\n0 get 12 14 1 = nil at -\n0 poll = 0\n\
    0 leave = ok\nend used 1\n";

/// A number that is put and taken.
const FIVE: Value = Value::Number(5);

/// Another one.
const SIX: Value = Value::Number(6);

/// What puts and takes of them come to.
const PUT_FIVE: Told = Told::Put {
    value: FIVE,
    reply: PutReply::Ok,
};

const PUT_SIX: Told = Told::Put {
    value: SIX,
    reply: PutReply::Ok,
};

const TOOK_FIVE: Told = Told::Took { value: FIVE };

const TOOK_SIX: Told = Told::Took { value: SIX };

const EMPTY: Told = Told::Take {
    reply: TakeReply::Empty,
};

/// What the one seat's puts and takes come to.
const TOLD_ALONE: [ToldCall; 6] = [
    ToldCall {
        seat: 0,
        told: EMPTY,
    },
    ToldCall {
        seat: 0,
        told: PUT_FIVE,
    },
    ToldCall {
        seat: 0,
        told: PUT_SIX,
    },
    ToldCall {
        seat: 0,
        told: TOOK_FIVE,
    },
    ToldCall {
        seat: 0,
        told: TOOK_SIX,
    },
    ToldCall {
        seat: 0,
        told: EMPTY,
    },
];

// The second seat comes between where the first has linked its 5 and where it would move the last node on.
const BETWEEN: &str = "history 2 run\nheap 4 0 2 2\n\
    0 new 15 2 = 0.0\n0 set 0 0 15 = was -\n0 set 0 1 15 = was -\n1 get 14 0 1 = object 0.0 at 0:2\n\
    0 num 10 5 = ok\n0 new 15 2 = 0.1\n0 set 15 0 10 = was -\n0 get 14 0 1 = object 0.0 at 0:2\n0 get 13 14 1 = nil at -\n\
    1 num 10 7 = ok\n1 new 15 2 = 1.0\n1 set 15 0 10 = was -\n1 get 14 0 1 = object 0.0 at 0:2\n1 get 13 14 1 = nil at -\n\
    0 cas 14 1 13 15 = was -\n1 cas 14 1 13 15 = now 0:4\n1 poll = 0\n\
    1 num 10 8 = ok\n1 new 15 2 = full need 1 found 0\n1 poll = 0\n\
    1 get 14 0 0 = object 0.0 at 0:1\n1 get 13 0 1 = object 0.0 at 0:2\n1 get 12 14 1 = object 0.1 at 0:4\n\
    1 same 14 13 = yes\n1 cas 0 1 13 12 = was 0:2\n1 poll = 0\n0 cas 0 1 14 15 = now 1:2\n0 poll = 0\n\
    1 get 14 0 0 = object 0.0 at 0:1\n1 get 13 0 1 = object 0.1 at 1:2\n1 get 12 14 1 = object 0.1 at 0:4\n\
    1 same 14 13 = no\n1 get 11 12 0 = number 5 at 0:3\n1 cas 0 0 14 12 = was 0:1\n1 copy 9 11 = ok\n1 poll = 0\n\
    0 leave = ok\n1 leave = ok\nend used 1\n";

/// The stamp of the first seat's fourth set.
const LINKED: u32 = 0x400_0004;

/// What the two seats' puts and takes come to.
const TOLD_BETWEEN: [ToldCall; 5] = [
    ToldCall {
        seat: 0,
        told: PUT_FIVE,
    },
    ToldCall {
        seat: 1,
        told: Told::Put {
            value: Value::Number(7),
            reply: PutReply::Again { stamp: LINKED },
        },
    },
    ToldCall {
        seat: 1,
        told: Told::Put {
            value: Value::Number(8),
            reply: PutReply::Full { need: 1, found: 0 },
        },
    },
    ToldCall {
        seat: 1,
        told: Told::Take {
            reply: TakeReply::Again { stamp: LINKED },
        },
    },
    ToldCall {
        seat: 1,
        told: TOOK_FIVE,
    },
];

// The first seat gets no first node.
const UNMADE: &str =
    "history 2 run\nheap 1 0 1 47\n0 new 15 2 = full need 1 found 0\n0 leave = ok\nend used 16\n";

/// Histories, each with what is told of it.
const HISTORIES: &[(&str, &str, &[ToldCall])] = &[
    ("one seat", ALONE, &TOLD_ALONE),
    ("two seats", BETWEEN, &TOLD_BETWEEN),
    ("no queue", UNMADE, &[]),
];

#[test]
fn tells_of_puts_and_takes(rt: HostRuntime) -> Result<(), Fail> {
    for (what, text, wanted) in HISTORIES {
        let found = told_of(rt.alloc(), text)?;
        same(&rt, &found.as_slice(), wanted, what);
    }
    Ok(())
}
