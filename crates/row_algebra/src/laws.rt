ghost use Rattle.std.specs.Prelude.{ℕ, List};
ghost use Rattle.std.specs.List.{AllByRecursion};
ghost use Rattle.mq_base.specs.BoundQuery.{IsBound};
ghost use Rattle.mq_base.specs.Table.{HasForm};
ghost use Rattle.mq_base.specs.declared.query.Query.{Query};
ghost use Rattle.mq_base.specs.declared.schema.Schema.{Schema};
ghost use Rattle.mq_base.specs.declared.table.PlainTable.{PlainTable};
ghost use Rattle.row_algebra.specs.Contents.{Contents, HaveForm, HaveOwnCells, contents_of};
ghost use Rattle.row_algebra.specs.Meaning.{AreWhole, query_rows};
ghost use Rattle.row_algebra.specs.Likeness.{ConstantKeeps, PairKeeps, CountKeeps, CutKeeps, ProductKeeps, JoinKeeps, GroupKeeps, SelectKeeps, LikeIsMapped, LikeIsSame};
ghost use Rattle.row_algebra.specs.Laws.{FiltersLeft, FiltersRight, FiltersInParts, CutsProduct, CutsFilter, CutsGroup, CutsSelected};

/// How the cells of two kinds belong together, attribute by attribute. docs/MODEL.md, "Rows", tells what it serves.
pub trait Likeness<C, D> {
    /// The family of relations.
    ghost like: { ℕ → C → D → Type 0 };
}

/// How two cells belong together, whatever attribute they are of.
pub trait Pairing<C, D> {
    /// The relation.
    ghost belongs: { C → D → Type 0 };
}

/// A selection by a constant keeps that rows belong together, where the tests of cells answer the same.
#[tactic(auto, using(crate::proofs::LikenessLaws::constant_keeps))]
pub fn constant_keeps<C, D, R: Likeness<C, D>>()
    ensures { ConstantKeeps R.like }
{}

/// So does a selection by two attributes.
#[tactic(auto, using(crate::proofs::LikenessLaws::pair_keeps))]
pub fn pair_keeps<C, D, R: Likeness<C, D>>()
    ensures { PairKeeps R.like }
{}

/// So does a selection by the count, whatever the tests of cells.
#[tactic(auto, using(crate::proofs::LikenessLaws::count_keeps))]
pub fn count_keeps<C, D, R: Likeness<C, D>>()
    ensures { CountKeeps R.like }
{}

/// A projection leads to rows that belong together by any family that the kept cells do by.
#[tactic(auto, using(crate::proofs::LikenessLaws::cut_keeps))]
pub fn cut_keeps<C, D, R: Likeness<C, D>, Q: Likeness<C, D>>()
    ensures { CutKeeps R.like Q.like }
{}

/// A product leads to rows that belong together by any family that the cells of both operands do by.
#[tactic(auto, using(crate::proofs::LikenessLaws::product_keeps))]
pub fn product_keeps<C, D, R: Likeness<C, D>, S: Likeness<C, D>, Q: Likeness<C, D>>()
    ensures { ProductKeeps R.like S.like Q.like }
{}

/// So does a join, where the tests of cells answer the same.
#[tactic(auto, using(crate::proofs::LikenessLaws::join_keeps))]
pub fn join_keeps<C, D, R: Likeness<C, D>, S: Likeness<C, D>, Q: Likeness<C, D>>()
    ensures { JoinKeeps R.like S.like Q.like }
{}

/// Groups belong together where grouped cells compare the same and functions make of cells what belongs together.
#[tactic(auto, using(crate::proofs::LikenessLaws::group_keeps))]
pub fn group_keeps<C, D, R: Likeness<C, D>, Q: Likeness<C, D>>()
    ensures { GroupKeeps R.like Q.like }
{}

/// Selected values belong together where cells and counts do.
#[tactic(auto, using(crate::proofs::LikenessLaws::select_keeps))]
pub fn select_keeps<C, D, R: Likeness<C, D>, S: Pairing<C, D>>()
    ensures { SelectKeeps R.like S.belongs }
{}

/// Rows that belong together by a function of the cells are one the change of the other.
#[tactic(auto, using(crate::proofs::LikenessLaws::mapped_from_like))]
pub fn mapped_from_like<C, D>()
    ensures { LikeIsMapped C D }
{}

/// Rows that belong together by equality are the same.
#[tactic(auto, using(crate::proofs::LikenessLaws::same_from_like))]
pub fn same_from_like<C>()
    ensures { LikeIsSame C }
{}

/// Conditions on the left rows alone may be met before the product.
#[tactic(auto, using(crate::proofs::RowLaws::conditions_left))]
pub fn conditions_left<C>()
    ensures { FiltersLeft C }
{}

/// Conditions on the right rows alone may be met before the product.
#[tactic(auto, using(crate::proofs::RowLaws::conditions_right))]
pub fn conditions_right<C>()
    ensures { FiltersRight C }
{}

/// Conditions may be met in two turns.
#[tactic(auto, using(crate::proofs::RowLaws::filter_parted))]
pub fn filter_parted<C>()
    ensures { FiltersInParts C }
{}

/// A cut of a product is the product of cuts.
#[tactic(auto, using(crate::proofs::RowLaws::cut_product))]
pub fn cut_product<C>()
    ensures { CutsProduct C }
{}

/// Conditions may be met before or after a cut to what they name.
#[tactic(auto, using(crate::proofs::RowLaws::cut_filter))]
pub fn cut_filter<C>()
    ensures { CutsFilter C }
{}

/// Groups see nothing of a cut to what they name.
#[tactic(auto, using(crate::proofs::RowLaws::grouped_cut))]
pub fn grouped_cut<C>()
    ensures { CutsGroup C }
{}

/// Selected values see nothing of a cut to what they name.
#[tactic(auto, using(crate::proofs::RowLaws::selected_cut))]
pub fn selected_cut<C>()
    ensures { CutsSelected C }
{}

/// Whatever tables are given, the rows of each have cells of its own attributes alone.
#[tactic(auto, using(crate::proofs::ContentLaws::contents_own))]
pub fn contents_own()
    ensures { (schema : Schema) (tables : List PlainTable) → HaveOwnCells schema (contents_of schema tables) }
{}

/// Tables in their form give contents in theirs: each row has a cell of its type for each of its table's attributes.
#[tactic(auto, using(crate::proofs::ContentLaws::contents_form))]
pub fn contents_form()
    ensures { (schema : Schema) (tables : List PlainTable) → AllByRecursion (HasForm schema) tables → HaveForm schema (contents_of schema tables) }
{}

/// Each row that a bound query asks of such contents has a value for each item of its select list.
#[tactic(auto, using(crate::proofs::WholeLaws::query_whole))]
pub fn query_whole()
    ensures { (schema : Schema) (q : Query) (contents : Contents) → IsBound schema q → HaveForm schema contents → AreWhole q (query_rows contents q) }
{}
