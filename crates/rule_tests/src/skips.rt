//! What a valve counts for in the quarters of its unit, and the quarters that are skipped.

mod marks;
mod quarters;
