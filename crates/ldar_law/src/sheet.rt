use crate::items::Items;
use crate::tag::Tag;
use fact_kinds::Kind;
use ldar_days::Month;

/// What a report needs to know about one component.
#[derive(Drop)]
pub struct Sheet {
    pub component: u16,
    pub kind: Kind,
    /// The months with a leak of the component.
    pub leaks: Items<Month>,
    pub tags: Items<Tag>,
}
