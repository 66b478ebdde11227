//! The meaning of each word, as a law: an empty function whose contract is the law.

ghost use Rattle.list_words.specs.Order.{InOrderPermutes, InOrderAscends, AscendingIsOne, InOrderForgetsOrder, CutIsByOrder, FrontIsCut, PutEachIsInOrder};
ghost use Rattle.list_words.specs.Parts.{CutHasParts, CutJoins};
ghost use Rattle.list_words.specs.Ranges.{UntilHolds, UntilCounts};
ghost use Rattle.list_words.specs.Words.{SomewhereDecides, FirstWhereIsFirst, FirstWhereFinds, FirstGivenIsFirst};
ghost use Rattle.list_words.specs.Words.{FirstGivenFinds, EachWhereHolds, LastSuchIsLast, LastSuchFinds};

/// `somewhere` is true exactly if some element passes, seen with the elements before it and after it.
pub fn some_element<X>()
    ensures law { SomewhereDecides X }
{}

/// `first_where` returns the first element that passes.
pub fn first_element<X>()
    ensures law { FirstWhereIsFirst X }
{}

/// `first_where` returns an element exactly if one passes.
pub fn first_element_found<X>()
    ensures law { FirstWhereFinds X }
{}

/// `first_given` returns the value of the first element that has one.
pub fn first_gift<X, Y>()
    ensures law { FirstGivenIsFirst X Y }
{}

/// `first_given` returns a value exactly if some element has one.
pub fn first_gift_found<X, Y>()
    ensures law { FirstGivenFinds X Y }
{}

/// `each_where` contains exactly the values of the elements.
pub fn each_gift<X, Y>()
    ensures law { EachWhereHolds X Y }
{}

/// `last_such` returns the last element that passes.
pub fn last_element<X>()
    ensures law { LastSuchIsLast X }
{}

/// `last_such` returns an element exactly if one passes.
pub fn last_element_found<X>()
    ensures law { LastSuchFinds X }
{}

/// `in_order` is a permutation of its list.
pub fn in_order_permutes<X>()
    ensures law { InOrderPermutes X }
{}

/// `in_order` returns an ascending list if no two elements tie.
pub fn in_order_ascends<X>()
    ensures law { InOrderAscends X }
{}

/// Two ascending lists with the same elements are equal.
pub fn ascending_is_one<X>()
    ensures law { AscendingIsOne X }
{}

/// `in_order` does not depend on the order of its input if no two elements tie.
pub fn in_order_forgets<X>()
    ensures law { InOrderForgetsOrder X }
{}

/// Inserting further elements one by one sorts the whole list if no two elements tie.
pub fn put_each_in_order<X>()
    ensures law { PutEachIsInOrder X }
{}

/// An element of an ascending list has the earlier elements before it and the later ones after it.
pub fn cut_is_by_order<X>()
    ensures law { CutIsByOrder X }
{}

/// A test that passes every element before one that passes selects a prefix of an ascending list.
pub fn front_is_cut<X>()
    ensures law { FrontIsCut X }
{}

/// `until low end` contains the numbers from `low` up to, but not including, `end`.
pub fn until_holds()
    ensures law { UntilHolds }
{}

/// `until` counts up by one.
pub fn until_counts()
    ensures law { UntilCounts }
{}

/// `cut n` returns parts of `n` elements each, the last one possibly shorter.
pub fn cut_has_parts<X>()
    ensures law { CutHasParts X }
{}

/// The parts of `cut`, joined in order, are the list.
pub fn cut_joins<X>()
    ensures law { CutJoins X }
{}
