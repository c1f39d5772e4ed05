//! Laws of forms and ranges, each the contract of a function that does nothing when it runs.
ghost use Rattle.linear_facts.specs.Laws.{FormsStayBelow, SumsStayBelow, MultiplesStayBelow};
ghost use Rattle.linear_facts.specs.Laws.{SubstitutionsStayBelow, AgreeBelow, RangesFit};
ghost use Rattle.linear_facts.specs.Differences.{OrdersHold};

/// A form that speaks of the first atoms alone speaks of no others once there are more.
pub fn forms_stay_below()
    ensures { FormsStayBelow }
{}

/// A sum speaks of the atoms of its parts alone.
pub fn sums_stay_below()
    ensures { SumsStayBelow }
{}

/// A multiple speaks of the form's atoms alone.
pub fn multiples_stay_below()
    ensures { MultiplesStayBelow }
{}

/// A form with its atoms replaced speaks of the atoms of what stands in their place alone.
pub fn substitutions_stay_below()
    ensures { SubstitutionsStayBelow }
{}

/// A form means the same wherever the atoms that it may speak of are the same numbers.
pub fn agree_below()
    ensures { AgreeBelow }
{}

/// A form's range holds numbers of 32 bits alone.
pub fn ranges_fit()
    ensures { RangesFit }
{}

/// What is shown to be not less is so.
pub fn orders_hold()
    ensures { OrdersHold }
{}
