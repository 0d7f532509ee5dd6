//! What rows are, said once for every kind of cell: the operations on them, groups, selected values and the rows that
//! a query asks for, with their laws. There is no code here but the laws; plans and their runs stand on it.
#![tactic(auto)]

mod laws;

pub use laws::{
    Likeness, Pairing, conditions_left, conditions_right, constant_keeps, contents_form,
    contents_own, count_keeps, cut_filter, cut_keeps, cut_product, filter_parted, group_keeps,
    grouped_cut, join_keeps, mapped_from_like, pair_keeps, product_keeps, query_whole,
    same_from_like, select_keeps, selected_cut,
};
