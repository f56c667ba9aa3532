use pagetable::PageTable;
use std::marker::PhantomData;
use tables::TwoWay;

// The links of one area, through the two-way check, and its pages. `C` is the cost rule.
#[derive(Drop)]
pub struct Area<C, T> {
    pub(crate) rule: PhantomData<C>,
    pub(crate) table: TwoWay<T>,
    pub(crate) pages: PageTable,
}
