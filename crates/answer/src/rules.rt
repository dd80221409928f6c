// Rules read over lent numbers: a stack, and the table that they are read into.
ghost use Rattle.std.specs.Prelude.{ℕ, List};
ghost use Rattle.schema.specs.Verdict.{RulesAt};

use crate::LENT;
use schema::reading::{NoRules, Rules, STACK, read_rules};

pub(crate) fn read_into(rules: &[u8], lent: &mut [u64; LENT]) -> Result<Rules, NoRules>
    ensures { (table : List ℕ) × RulesAt rules.now table result }
{
    let (stack, table) = lent.split_at_mut(STACK);
    read_rules(rules, stack, table)
}
