//! Worked runs of properties, elements, references, wraps, type tags and collections, each as laws.
ghost use Rattle.machine_laws.specs.LegalRuns.{EndsAsTold};
ghost use Rattle.machine_laws.specs.PropertiesAndElements as properties_and_elements;
ghost use Rattle.machine_laws.specs.StrongAndWeak as strong_and_weak;
ghost use Rattle.machine_laws.specs.ReferenceCounts as reference_counts;
ghost use Rattle.machine_laws.specs.WrapsAndTags as wraps_and_tags;

/// Properties and elements.
pub fn properties_and_elements_run()
    ensures ends { EndsAsTold properties_and_elements.setting properties_and_elements.trace }
    ensures prints { properties_and_elements.Prints }

    // No other name is listed first, an absent name gives no other kind, and the refused calls have no other status.
    ensures strict { properties_and_elements.IsStrict }
{}

/// A value that a reference alone keeps, and collections before and after the reference is weak.
pub fn strong_and_weak_runs()
    ensures ends { EndsAsTold strong_and_weak.setting strong_and_weak.trace }
    ensures prints { strong_and_weak.Prints }

    // A strong reference keeps its value and a weak one does not; without a value the reference gives no handle and is not counted up, and none is
    // counted below 0.
    ensures strict { strong_and_weak.IsStrict }
{}

/// The greatest count, a reference that is deleted twice, and a reference to a number.
pub fn reference_counts_run()
    ensures ends { EndsAsTold reference_counts.setting reference_counts.trace }
    ensures prints { reference_counts.Prints }

    // The greatest count is not passed, what was deleted is deleted once, and no reference is to a number.
    ensures strict { reference_counts.IsStrict }
{}

/// A wrap, a type tag and an external, each made, asked for and refused, and a collection.
pub fn wraps_and_tags_run()
    ensures ends { EndsAsTold wraps_and_tags.setting wraps_and_tags.trace }
    ensures prints { wraps_and_tags.Prints }

    // What is wrapped is not wrapped again, its payload is told, and what has no tag is told so; after the collection nothing is attached.
    ensures strict { wraps_and_tags.IsStrict }
{}
