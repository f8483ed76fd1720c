ghost use Rattle.std.specs.Prelude.{◌≡◌, ◌-◌, ◌<◌, ◌≤◌, ℕ, false, None, List, length, IsTrue, IfOk, MatchResult};
ghost use Rattle.std.specs.BTreeSet.{contains};
ghost use Rattle.std.specs.Ordering.{nat_cmp};
ghost use Rattle.page_store.specs.FreeNumbers.{greatest_page_count};
ghost use Rattle.page_store.specs.PageMap.{at};
ghost use Rattle.btree_node.specs.Lists.{Element};
ghost use Rattle.btree_node.specs.Layout.{layout_of};
ghost use Rattle.btree_insert.specs.Sizes.{greatest_height, greatest_size};
ghost use Rattle.btree_insert.specs.Faults.{is_tree_device};
ghost use Rattle.btree_insert.specs.Growth.{IsNotOfPages};
ghost use Rattle.btree_insert.specs.PageTrees.{HoldsIn};
ghost use Rattle.btree_insert.specs.declared.tree.Tree.{Tree as TreeOf};
ghost use Rattle.btree_delete.specs.Survey.{CanSurvey, AreKept, height_of, seen_of, IsRooted, WentThrough, Measured, LeavesFile, Surveys};

use crate::opening::free_numbers::free_numbers;
use crate::opening::survey::{Above, Survey, survey_page};
use btree_insert::{GREATEST_HEIGHT, Tree, TreeFault, UNBOUNDED};
use page_store::{Pages, Store};
use std::alloc::Global;
use std::collections::BTreeSet;

/// The tree of a root as the pages of a file of that version hold it, and the numbers that none of its
/// pages has. It reads each page of the tree once. The pages of the first version are in memory as they
/// are written then. Faults: Device; Memory; Damaged where the root has no tree of the class.
pub(crate) fn measure_tree<S: Store>(
    alloc: Global,
    pages: &mut Pages<S>,
    version: u16,
    order: u16,
    root: u32,
) -> Result<(Tree, BTreeSet<u32>), TreeFault>
    requires { CanSurvey order pages.old }
    ensures found { IsTrue pages.old.steady → IfOk result
        (λ r. Measured (layout_of version) order pages.old.pages root r.0
        (contains nat_cmp r.1) pages.old.reads pages.new.reads) }
    ensures exact { IsTrue pages.old.steady → (tree : TreeOf) (es : List Element) (us : List ℕ)
        → tree.order ≡ order → tree.root ≡ root → HoldsIn (layout_of version) (at pages.old.pages) tree es us
        → MatchResult result (λ r. r.0 ≡ tree) IsNotOfPages }
    ensures left { IfOk result (λ r. LeavesFile (layout_of version) order pages.old pages.new
        (contains nat_cmp r.1)) }
    ensures small { IfOk result (λ r. (r.0.order ≡ order)
        × (r.0.height ≤ greatest_height) × (r.0.used ≤ greatest_size)) }
    ensures surveys { Surveys version (is_tree_device result) pages.old pages.new }
{
    let survey = survey_root(alloc, pages, version, order, root)?;
    let height = height_of(survey.leaf());
    let count = survey.keys();
    let reached = survey.into_reached();
    let free = free_numbers(alloc, reached.as_slice())?;
    let used = (reached.len() - 1 - free.len()) as u32;
    let tree = Tree {
        order,
        root,
        height,
        count,
        used,
    };
    Ok((tree, free))
}

/// How many levels there are where the first leaf stands so far below the most.
fn height_of(leaf: Option<u32>) -> u32
    ensures value { result ≡ height_of leaf }
    ensures most { result ≤ greatest_height }
{
    leaf.map_or(0, |level| GREATEST_HEIGHT.saturating_sub(level))
}

/// What a walk sees of the whole tree of a root.
fn survey_root<S: Store>(
    alloc: Global,
    pages: &mut Pages<S>,
    version: u16,
    order: u16,
    root: u32,
) -> Result<Survey, TreeFault>
    requires { CanSurvey order pages.old }
    ensures found { IsTrue pages.old.steady → IfOk result (λ new. WentThrough (layout_of version) order
        (at pages.old.pages) (length pages.old.pages) root new pages.old.reads pages.new.reads) }
    ensures exact { IsTrue pages.old.steady → (height : ℕ) (es : List Element) (us : List ℕ)
        → IsRooted (layout_of version) order (at pages.old.pages) root height es us
        → MatchResult result (λ new. new ≡ seen_of (length pages.old.pages) height es us)
        IsNotOfPages }
    ensures long { IfOk result (λ new. length new.reached ≡ length pages.old.pages) }
    ensures kept { IfOk result
        (λ new. AreKept (layout_of version) order pages.new new.reached) }
    ensures some { 1 ≤ length pages.old.pages }
    ensures most { length pages.old.pages ≤ greatest_page_count }
    ensures header { at pages.old.pages 0 ≡ None }
    ensures surveys { Surveys version (is_tree_device result) pages.old pages.new }
{
    let count = pages.page_count() as usize;
    let reached = vec![in alloc; false; count]?;
    let mut survey = Survey::new(reached);
    if root == 0 {
        return Ok(survey);
    }
    let above = Above {
        from: root,
        left: GREATEST_HEIGHT - 1,
        bounds: UNBOUNDED,
    };
    survey_page(alloc, pages, &mut survey, version, order, 1, root, &above)?;
    Ok(survey)
}
