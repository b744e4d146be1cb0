ghost use Rattle.std.specs.Prelude.{◌≡◌, ℕ, ◌-◌, ◌^◌, ◌<◌, ◌↔◌};
ghost use Rattle.heap_words.specs.Cell.{IsCell, cell_of, cell_word};
ghost use Rattle.heap_words.specs.Group.{IsGroup, group_of, group_word};
ghost use Rattle.heap_words.specs.Kind.{HasKind, kind_of};
ghost use Rattle.heap_words.specs.Meta.{IsMeta, meta_word};
ghost use Rattle.heap_words.specs.Name.{IsName, name_word};
ghost use Rattle.heap_words.specs.Phase.{IsPhase, phase_number, phase_of};
ghost use Rattle.heap_words.specs.Spot.{IsSpot, spot_word};
ghost use Rattle.heap_words.specs.declared.cell.Cell.{Cell};
ghost use Rattle.heap_words.specs.declared.group.Group.{Group};
ghost use Rattle.heap_words.specs.declared.kind.Kind.{Kind};
ghost use Rattle.heap_words.specs.declared.meta.Meta.{Meta};
ghost use Rattle.heap_words.specs.declared.name.Name.{Name};
ghost use Rattle.heap_words.specs.declared.phase.Phase.{Phase};
ghost use Rattle.heap_words.specs.declared.spot.Spot.{Spot};

use crate::phase::LEFT;

/// Does nothing: its clauses say of every word and value that packing and reading undo each other.
pub fn word_laws()
    // Every word has exactly one kind, and a cell's word has the cell's.
    ensures kind { (word : ℕ) (kind : Kind) → word < 2 ^ 64
        → HasKind word kind ↔ (kind ≡ kind_of word) }
    ensures kind_of_cell { (cell : Cell) (kind : Kind) → IsCell cell
        → HasKind (cell_word cell) kind ↔ (kind ≡ cell.kind) }

    // Each cell has a word of its own, and each word is that of a cell.
    ensures cell_fits { (cell : Cell) → IsCell cell → cell_word cell < 2 ^ 64 }
    ensures cell_read { (cell : Cell) → IsCell cell → cell_of (cell_word cell) ≡ cell }
    ensures cell_packed { (word : ℕ) → word < 2 ^ 64
        → IsCell (cell_of word) × (cell_word (cell_of word) ≡ word) }

    // So it is with groups.
    ensures group_fits { (group : Group) → IsGroup group → group_word group < 2 ^ 64 }
    ensures group_read { (group : Group) → IsGroup group → group_of (group_word group) ≡ group }
    ensures group_packed { (word : ℕ) → word < 2 ^ 64
        → IsGroup (group_of word) × (group_word (group_of word) ≡ word) }

    // And with phases and their numbers, of which `LEFT` is none.
    ensures phase_fits { (phase : Phase) → IsPhase phase → phase_number phase < LEFT }
    ensures phase_read { (phase : Phase) → IsPhase phase → phase_of (phase_number phase) ≡ phase }
    ensures phase_packed { (number : ℕ) → number < LEFT
        → IsPhase (phase_of number) × (phase_number (phase_of number) ≡ number) }

    // Two metas, two names or two spots that have one word are the same.
    ensures meta { (one two : Meta) → IsMeta one → IsMeta two
        → meta_word one ≡ meta_word two → one ≡ two }
    ensures name { (one two : Name) → IsName one → IsName two
        → name_word one ≡ name_word two → one ≡ two }
    ensures spot { (one two : Spot) → IsSpot one → IsSpot two
        → spot_word one ≡ spot_word two → one ≡ two }
{}
