ghost use Rattle.std.specs.Prelude.{◌≡◌, ◌∷◌, [], Some, codes, decimal, IfSome};
ghost use Rattle.heap_model.specs.Heap.{IsHeap};
ghost use Rattle.script_text.specs.HeapLine.{heap_named, heap_of, heap_of_three, heap_of_four, heap_within};
ghost use Rattle.script_text.specs.Preamble.{usual_board};
ghost use Rattle.script_text.specs.Text.{words_of};
ghost use Rattle.script_text.specs.Words.{heap_line};

use crate::number::read_short;
use crate::parts::Parts;
use crate::preamble::USUAL_BOARD;
use heap_model::Heap;

/// The heap that a heap line of this version asks for, if it is one within the limits.
pub fn read_heap(line: &[u8], version: u8) -> Option<Heap>
    ensures value { result ≡ heap_of version (words_of line.now) }
    ensures found { IfSome result (λ heap. line.now ≡ heap_line (record { version = version; heap = heap })) }
    ensures range { IfSome result IsHeap }
    ensures board { IfSome result (λ heap. version ≡ 1 → heap.board ≡ usual_board) }
{
    if version == 2 {
        heap_of_four(line)
    } else {
        heap_of_three(line)
    }
}

/// The heap of a line without a number for the board.
fn heap_of_three(line: &[u8]) -> Option<Heap>
    ensures value { result ≡ heap_of_three (words_of line.now) }
    ensures found { IfSome result (λ heap. words_of line.now ≡
        codes "heap" ∷ decimal heap.groups ∷ decimal heap.spine ∷ decimal heap.seats ∷ []) }
    ensures range { IfSome result IsHeap }
    ensures board { IfSome result (λ heap. heap.board ≡ usual_board) }
{
    let mut words = Parts::words(line);
    let [Some(word), Some(groups), Some(spine), Some(seats), None] = [
        words.next(),
        words.next(),
        words.next(),
        words.next(),
        words.next(),
    ] else {
        return None;
    };
    heap_named(word, groups, spine, seats, Some(USUAL_BOARD.into()))
}

/// The heap of a line with a number for the board.
fn heap_of_four(line: &[u8]) -> Option<Heap>
    ensures value { result ≡ heap_of_four (words_of line.now) }
    ensures found { IfSome result (λ heap. words_of line.now ≡
        codes "heap" ∷ decimal heap.groups ∷ decimal heap.spine ∷ decimal heap.seats ∷ decimal heap.board ∷ []) }
    ensures range { IfSome result IsHeap }
{
    let mut words = Parts::words(line);
    let [
        Some(word),
        Some(groups),
        Some(spine),
        Some(seats),
        Some(board),
        None,
    ] = [
        words.next(),
        words.next(),
        words.next(),
        words.next(),
        words.next(),
        words.next(),
    ]
    else {
        return None;
    };
    heap_named(word, groups, spine, seats, read_short(board))
}

/// The heap that the first word names, with these numbers.
fn heap_named(
    word: &[u8],
    groups: &[u8],
    spine: &[u8],
    seats: &[u8],
    board: Option<u64>,
) -> Option<Heap>
    ensures value { result ≡ heap_named word.now groups.now spine.now seats.now board }
    ensures word { IfSome result (λ _. word.now ≡ codes "heap") }
    ensures groups { IfSome result (λ heap. groups.now ≡ decimal heap.groups) }
    ensures spine { IfSome result (λ heap. spine.now ≡ decimal heap.spine) }
    ensures seats { IfSome result (λ heap. seats.now ≡ decimal heap.seats) }
    ensures board { IfSome result (λ heap. board ≡ Some heap.board) }
    ensures range { IfSome result IsHeap }
{
    if word != b"heap".as_slice() {
        return None;
    }
    let (Some(groups), Some(spine), Some(seats), Some(board)) = (
        read_short(groups),
        read_short(spine),
        read_short(seats),
        board,
    ) else {
        return None;
    };
    heap_of_sizes(groups, spine, seats, board)
}

fn heap_of_sizes(groups: u64, spine: u64, seats: u64, board: u64) -> Option<Heap>
    ensures value { result ≡ heap_within (Some groups) (Some spine) (Some seats) (Some board) }
    ensures sizes { IfSome result (λ heap. heap ≡ record { groups = groups; spine = spine; seats = seats; board = board }) }
    ensures range { IfSome result IsHeap }
{
    let (Ok(groups), Ok(spine), Ok(seats), Ok(board)) = (
        u16::try_from(groups),
        u16::try_from(spine),
        u8::try_from(seats),
        u8::try_from(board),
    ) else {
        return None;
    };
    Heap::make(groups, spine, seats, board)
}
