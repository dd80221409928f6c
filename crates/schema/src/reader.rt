// Rules as they are read, node by node, into a table.
ghost use Rattle.std.specs.Prelude.{◌≡◌, ◌≤◌, List, ◌∷◌, length};
ghost use Rattle.schema.specs.Grammar.{Sort as PendingSort};
ghost use Rattle.schema.specs.Nodes.{sort_of};
ghost use Rattle.schema.specs.Reading.{Whole};
ghost use Rattle.schema.specs.Verdict.{Stands, Advances};

use crate::nodes::{Run, Sort};
use crate::reading::{MOST_PARTS, NoRules, TABLE};
use crate::sorts::read_node;
use crate::table::write_row;

// The bytes and the table, and how far reading has come: to which byte, after how many parts and nodes. No Reader of sequence's in it: nodes are read at any place.
// What `advance` requires is no ghost field: with one, `read_all` doesn't learn what the table ends as, which nobody asks of a Stack's runs.
#[derive(Drop)]
pub(crate) struct Reader<'b, 't> {
    pub(crate) bytes: &'b [u8],
    pub(crate) table: &'t mut [u64],
    pub(crate) at: usize,
    pub(crate) parts: usize,
    pub(crate) nodes: usize,
}

impl Reader<'_, '_> {
    // One node of a sort, which gives what is in it.
    #[tactic(auto, using(crate::proofs::Progresses::one_node))]
    pub(crate) fn advance(&mut self, sort: Sort) -> Result<Run, NoRules>
        requires room { TABLE ≤ length self.old.table.now }
        requires listed { self.old.nodes ≤ self.old.parts }
        ensures advances { (rest : List PendingSort) → Whole rest → Stands self.old (sort_of sort ∷ rest) → Advances self.old rest self.new result }
        ensures same_length { length self.new.table.now ≡ length self.old.table.now }
        ensures same_table { self.new.table.ghost_name ≡ self.old.table.ghost_name }
    {
        let read = read_node(self.bytes, self.at, sort)?;
        let parts = self.parts.saturating_add(read.value.parts(sort));
        if parts > MOST_PARTS {
            return Err(NoRules::TooLarge);
        }
        write_row(self.table, self.nodes, read.value, read.next);
        self.at = read.next;
        self.parts = parts;
        self.nodes += 1;
        Ok(read.value.inner())
    }
}
