ghost use Rattle.std.specs.Prelude.{◌≡◌, ◌<◌, ◌^◌, ◌↔◌, IsTrue};
ghost use Rattle.std.specs.List.{filter};

use crate::graph::Graph;
use crate::graph::reach::marks::Marks;
use crate::id::{Id, Value};

impl Graph {
    ghost use Rattle.heap_model.specs.graph.Sizes.{spine_words_at, fragments_of_all, spine_words_of_all};
    ghost use Rattle.heap_model.specs.graph.Marking.{is_marked};
    ghost use Rattle.heap_model.specs.account.Sweep.{IsArray};

    pub(crate) fn is_array(&self, id: Id) -> bool
        ensures { IsTrue result ↔ IsArray self.now id }
    {
        match self.target(Value::Object(id)) {
            Some(object) => object.is_array(),
            None => false,
        }
    }

    /// The spine words of the object, and 0 where there is no such object.
    pub(crate) fn words(&self, id: Id) -> u32
        ensures { result ≡ spine_words_at self.now id }
    {
        match self.target(Value::Object(id)) {
            Some(object) => object.spine_words(),
            None => 0,
        }
    }

    /// The fragments of all these objects.
    pub(crate) fn frags_of(&self, ids: &[Id]) -> u128
        ensures sum { result ≡ fragments_of_all self.now ids.now }
        ensures fits { result < 2 ^ 100 }
    {
        let mut sum = 0;
        for id in ids {
            sum += self.frags(*id) as u128;
        }
        sum
    }

    /// The fragments of those of the objects that are marked.
    pub(super) fn marked_frags(&self, ids: &[Id], marks: &Marks) -> u128
        ensures { result ≡ fragments_of_all self.now (filter (is_marked marks.now) ids.now) }
    {
        let mut sum = 0;
        for id in ids {
            if marks.is_marked(*id) {
                sum += self.frags(*id) as u128;
            }
        }
        sum
    }

    /// The spine words of all these objects.
    pub(crate) fn words_of(&self, ids: &[Id]) -> u128
        ensures sum { result ≡ spine_words_of_all self.now ids.now }
        ensures fits { result < 2 ^ 100 }
    {
        let mut sum = 0;
        for id in ids {
            sum += self.words(*id) as u128;
        }
        sum
    }
}
