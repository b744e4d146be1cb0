ghost use Rattle.std.specs.Prelude.{◌≡◌, ◌<◌, ◌≤◌, ◌^◌, length};
ghost use Rattle.heap_words.specs.Newborn.{record_word_of, link_after, head_word_of, record_meta, spine_word as spine_word_of, array_meta, sentinel_word_of, array_word_of};

use crate::cell::Cell;
use crate::kind::Kind;
use crate::meta::Meta;
use crate::name::Name;
use crate::spot::Spot;

/// The spine word that names a fragment.
pub fn spine_word(fragment: u16) -> u64
    ensures { result ≡ spine_word_of fragment }
{
    fixed_word(u32::from(fragment))
}

/// A fixed word of this value, with the stamp 0.
pub fn fixed_word(value: u32) -> u64
    requires { value < 2 ^ 30 }
    ensures { result ≡ spine_word_of value }
{
    Cell {
        kind: Kind::Fixed,
        value,
        stamp: 0,
    }
    .pack()
}

/// An array that isn't born yet: its name, how many cells it has, and where its spine stands.
#[derive(Clone, Copy)]
pub struct NewbornArray {
    pub name: Name,
    pub cells: u16,
    pub spine: Spot,
}

impl NewbornArray {
    /// Word `part` of its fragment `k`, while no cell was ever set.
    pub fn word(&self, k: usize, part: u8) -> u64
        requires cells { self.now.cells < 2 ^ 13 }
        requires half { self.now.spine.half < 2 }
        ensures { result ≡ array_word_of self.now.name self.now.cells self.now.spine k part }
    {
        if k == 0 { self.sentinel_word(part) } else { 0 }
    }

    /// A word of its first fragment.
    fn sentinel_word(&self, part: u8) -> u64
        requires cells { self.now.cells < 2 ^ 13 }
        requires half { self.now.spine.half < 2 }
        ensures { result ≡ sentinel_word_of self.now.name self.now.cells self.now.spine part }
    {
        match part {
            0 => self.meta(),
            1 => self.name.pack(),
            2 => self.spine.pack(),
            _ => fixed_word(0),
        }
    }

    fn meta(&self) -> u64
        requires { self.now.cells < 2 ^ 13 }
        ensures { result ≡ array_meta self.now.cells }
    {
        Meta {
            array: true,
            length: self.cells,
            next: 0,
        }
        .pack()
    }
}

/// A record that isn't born yet: its name, how many fields it has, and its fragments in their order.
#[derive(Clone, Copy)]
pub struct Newborn<'a> {
    pub name: Name,
    pub fields: u16,
    pub fragments: &'a [u16],
}

impl Newborn<'_> {
    /// Word `part` of its fragment `k`, while no field was ever set.
    pub fn word(&self, k: usize, part: u8) -> u64
        requires fields { self.now.fields < 2 ^ 13 }
        requires within { k < length self.now.fragments.now }
        ensures { result ≡ record_word_of self.now.name self.now.fields self.now.fragments.now k part }
    {
        if k == 0 {
            self.head_word(part)
        } else if part == 0 {
            self.link_after(k)
        } else {
            0
        }
    }

    /// A word of its first fragment.
    fn head_word(&self, part: u8) -> u64
        requires { self.now.fields < 2 ^ 13 }
        ensures { result ≡ head_word_of self.now.name self.now.fields self.now.fragments.now part }
    {
        match part {
            0 => self.meta(),
            1 => self.name.pack(),
            _ => 0,
        }
    }

    fn meta(&self) -> u64
        requires { self.now.fields < 2 ^ 13 }
        ensures { result ≡ record_meta self.now.fields self.now.fragments.now }
    {
        let next = self.fragments.get(1).copied().unwrap_or(0);
        Meta {
            array: false,
            length: self.fields,
            next,
        }
        .pack()
    }

    /// The link from a fragment to the one after it.
    fn link_after(&self, k: usize) -> u64
        requires { k < length self.now.fragments.now }
        ensures { result ≡ link_after self.now.fragments.now k }
    {
        let Some(next) = self.fragments.get(k + 1) else {
            return 0;
        };
        Cell {
            kind: Kind::Reference,
            value: u32::from(*next),
            stamp: 0,
        }
        .pack()
    }
}
