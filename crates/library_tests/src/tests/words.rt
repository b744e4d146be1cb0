//! Words that are read and packed.

use super::comparing::same;
use heap_words::{Cell, Group, Kind, LEFT, Meta, Name, Phase, Spot};

#[test]
fn reads_and_packs_cells(rt: HostRuntime) {
    for (word, kind, value, stamp) in [
        (0, Kind::Nil, 0, 0),
        (0x4000_0005_0400_0001, Kind::Number, 5, (1 << 26) + 1),
        (0x8000_000b_0400_0002, Kind::Reference, 11, (1 << 26) + 2),
        (
            0xffff_ffff_ffff_ffff,
            Kind::Fixed,
            1_073_741_823,
            4_294_967_295,
        ),
    ] {
        let cell = Cell::read(word);
        same(&rt, &cell, &Cell { kind, value, stamp }, &word);
        same(&rt, &cell.pack(), &word, &word);
    }
}

#[test]
fn reads_and_packs_metas(rt: HostRuntime) {
    for (word, want) in [
        (
            0xc000_0020_0000_0001,
            Some(Meta {
                array: false,
                length: 32,
                next: 1,
            }),
        ),
        (
            0xe000_0008_0000_0000,
            Some(Meta {
                array: true,
                length: 8,
                next: 0,
            }),
        ),
        (0xe000_0008_0000_0001, None), // an array with a chain
        (0xc000_2000_0000_0000, None), // 8,192 fields
        (0xc000_0020_0001_0000, None), // the next fragment is 65,536
        (0x4000_0020_0000_0001, None), // the number 32
    ] {
        let read = Meta::read(word);
        same(&rt, &read, &want, &word);
        if let Some(meta) = read {
            same(&rt, &meta.pack(), &word, &word);
        }
    }
}

#[test]
fn reads_and_packs_names(rt: HostRuntime) {
    for (word, want) in [
        (0xc000_0000_0000_0000, Some(Name { owner: 0, count: 0 })),
        (0xc000_0001_0000_0003, Some(Name { owner: 1, count: 3 })),
        (0xc000_0100_0000_0003, None), // the owner is 256
        (0x8000_0001_0000_0003, None), // a reference
    ] {
        let read = Name::read(word);
        same(&rt, &read, &want, &word);
        if let Some(name) = read {
            same(&rt, &name.pack(), &word, &word);
        }
    }
}

#[test]
fn reads_and_packs_spots(rt: HostRuntime) {
    for (word, want) in [
        (0xc000_0001_0000_0006, Some(Spot { half: 1, offset: 6 })),
        (0xc000_0002_0000_0006, None), // the half is 2
        (0, None), // nil
    ] {
        let read = Spot::read(word);
        same(&rt, &read, &want, &word);
        if let Some(spot) = read {
            same(&rt, &spot.pack(), &word, &word);
        }
    }
}

#[test]
fn tells_spots_and_lengths_of_any_word(rt: HostRuntime) {
    for (word, half, offset, length) in [
        (0xc000_0001_0000_0006, 1, 6, None),
        (0xc000_0003_8000_0006, 1, 6, None), // the half and the offset have a bit too many
        (0xe000_0008_0000_0000, 0, 0, Some(8)), // the meta of an array
        (0xc000_0020_0000_0001, 0, 1, None), // the meta of a record
    ] {
        same(&rt, &Spot::told(word), &Spot { half, offset }, &word);
        let told = Meta::array_length(&Cell::read(word));
        same(&rt, &told, &length, &word);
    }
}

#[test]
fn reads_and_packs_groups(rt: HostRuntime) {
    for (word, taken, born, marked, scanned) in [
        (0x0000_0000_07ff_07ff, 0x07ff, 0x07ff, 0, 0),
        (0x0004_0003_0002_0001, 1, 2, 3, 4),
    ] {
        let group = Group::read(word);
        let want = Group {
            taken,
            born,
            marked,
            scanned,
        };
        same(&rt, &group, &want, &word);
        same(&rt, &group.pack(), &word, &word);
    }
}

#[test]
fn reads_and_packs_phases(rt: HostRuntime) {
    for (number, cycle, k) in [(0, 0, 0), (6, 0, 6), (7, 1, 0), (16, 2, 2)] {
        let phase = Phase::read(number);
        same(&rt, &phase, &Phase { cycle, k }, &number);
        same(&rt, &phase.pack(), &number, &number);
    }
    same(
        &rt,
        &LEFT,
        &18_446_744_073_709_551_615,
        &"the word of a seat that left",
    );
}
