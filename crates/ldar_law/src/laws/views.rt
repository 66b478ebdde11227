//! Laws about all views.

ghost use Rattle.ldar_law.specs.ViewLaws.{ViewsForgetOrder, ViewsForgetLaterDays};

/// Histories with the same batches, in any order, show the same in each view.
pub fn views_forget_order()
    ensures law { ViewsForgetOrder }
{}

/// A batch of days after the view day does not change what is shown.
pub fn views_forget_later_days()
    ensures law { ViewsForgetLaterDays }
{}
