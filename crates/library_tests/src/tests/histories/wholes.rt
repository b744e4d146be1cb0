//! Whole histories, written out and in brief.

use super::super::comparing::same;
use super::RESERVE;
use heap_model::{Entry, Id};
use reply_text::{History, SpaceMark, read_history, render_brief, render_entry, render_history};
use script_text::Form;
use std::alloc::Global;
use std::test::Fail;

const ONE_FRAGMENT: &[u8] = b"history 1 play\nheap 1 0 1\n\
    0 takes 5\n0 new 1 2 = 0.0\n\
    space used 16 of 16 spine 0 of 0\n\
    0 gives back 4\n0 leave = ok\n\
    c phase 1\nc phase 2\nc phase 3\nc phase 4\nc phase 5\nc frees 12\nc phase 6\nc ends 0 kept 0\n\
    end used 0\n";

// A board of two fields takes one fragment.
const SMALL_BOARD: &[u8] = b"history 2 play\nheap 1 0 1 2\n\
    0 num 1 7 = ok\n0 cas 0 1 5 1 = was -\n0 cas 0 1 5 1 = now 0:1\n\
    space used 1 of 16 spine 0 of 0\n\
    0 leave = ok\n\
    c phase 1\nc phase 2\nc phase 3\nc phase 4\nc phase 5\nc frees 1\nc phase 6\nc ends 0 kept 0\n\
    end used 0\n";

/// A text, its version, the fields of its board, its entries, how many stand before the mark, and the fragments in use there.
const WHOLES: [(&[u8], u8, u8, usize, usize, u64); 3] = [
    (ONE_FRAGMENT, 1, 32, 12, 2, 16),
    (RESERVE, 1, 32, 29, 19, 15),
    (SMALL_BOARD, 2, 2, 12, 3, 1),
];

#[test]
fn whole(rt: HostRuntime) -> Result<(), Fail> {
    for (text, version, board, entries, before, used) in WHOLES {
        let history = read_history(rt.alloc(), text)?;
        same(&rt, &history.version, &version, &entries);
        same(&rt, &history.heap.board, &board, &entries);
        same(&rt, &history.form, &Form::Play, &entries);
        same(&rt, &history.entries.as_slice().len(), &entries, &entries);
        let mark = SpaceMark {
            before,
            used,
            total: 16,
            spine: 0,
            budget: 0,
        };
        same(&rt, &history.mark, &Some(mark), &entries);
        same(&rt, &history.end_used, &0, &entries);
        let written = render_history(rt.alloc(), &history)?;
        same(&rt, &written.as_slice(), &text, &entries);
    }
    Ok(())
}

#[test]
fn entry_alone(rt: HostRuntime) -> Result<(), Fail> {
    let line = render_entry(rt.alloc(), &Entry::Swings(Id::Made { seat: 3, count: 7 }))?;
    same(
        &rt,
        &line.as_slice(),
        &b"c swings 3.7".as_slice(),
        &"a lone entry",
    );
    Ok(())
}

// Commands of each refusal and some that are not, leaves, frees and cycles.
const MIXED: &[u8] = b"history 1 play\nheap 2 4 2\n\
    0 takes 16\n0 new 1 2 = 0.0\n0 new 2 47 = full need 16 found 4\n\
    1 array 1 64 = spine need 16 used 0\n1 get 1 5 0 = no object\n0 get 1 1 9 = no field\n\
    0 array 3 1 = 0.1\n0 poll = 0\nc turns 3 = done\nc swings 0.1\n\
    space used 27 of 32 spine 1 of 4\n\
    0 leave = ok\n1 leave = ok\nc frees 7\nc ends 0 kept 3\nc frees 4294967295\nc ends 1 kept 0\n\
    end used 5\n";

// Each number is counted by hand.
const MIXED_BRIEF: &[u8] = b"brief 1\nheap 2 4 2\ncommands 7 refused 4\n\
    made 2 cycles 2 freed 4294967302 swung 1\nspace used 27 of 32 spine 1 of 4\nend used 5\n";

/// The brief of the play that the text is, which has this mark.
fn brief_of(alloc: Global, text: &[u8], mark: SpaceMark) -> Result<Vec<u8>, Fail> {
    let read = read_history(alloc, text)?;
    if read.mark != Some(mark) {
        return Err("another mark".into());
    }
    let play = History {
        form: Form::Play,
        mark: Some(mark),
        ..read
    };
    Ok(render_brief(alloc, &play)?)
}

// A play of version 2 is told by the same lines, of which the heap line has the board.
const SMALL_BRIEF: &[u8] = b"brief 1\nheap 1 0 1 2\ncommands 3 refused 0\n\
    made 0 cycles 1 freed 1 swung 0\nspace used 1 of 16 spine 0 of 0\nend used 0\n";

#[test]
fn brief(rt: HostRuntime) -> Result<(), Fail> {
    let mark = SpaceMark {
        before: 10,
        used: 27,
        total: 32,
        spine: 1,
        budget: 4,
    };
    same(
        &rt,
        &brief_of(rt.alloc(), MIXED, mark)?.as_slice(),
        &MIXED_BRIEF,
        &"the brief",
    );
    let mark = SpaceMark {
        before: 3,
        used: 1,
        total: 16,
        spine: 0,
        budget: 0,
    };
    same(
        &rt,
        &brief_of(rt.alloc(), SMALL_BOARD, mark)?.as_slice(),
        &SMALL_BRIEF,
        &"of version 2",
    );
    Ok(())
}
