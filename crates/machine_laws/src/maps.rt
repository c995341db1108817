//! Laws of finite maps.
ghost use Rattle.machine_laws.specs.MapLaws.{ReferencesHaveNoOrder, NumbersHaveNoOrder, MapsAreTheirRecords, MapsRise, PlacesHaveNoOrder};

/// In what order a map's records came shows nowhere.
pub fn finite_maps()
    // A reference is found by its number, and in what order references were made shows nowhere.
    ensures references { ReferencesHaveNoOrder }

    // In what order numbers were issued shows nowhere.
    ensures numbers { NumbersHaveNoOrder }

    // Two maps of references with the same records are equal.
    ensures records { MapsAreTheirRecords }

    // The map of two references has them by rising number, whichever was made first.
    ensures rising { MapsRise }

    // A reference may be put into any empty place: a place that was given back may be used again, under a new number.
    ensures places { PlacesHaveNoOrder }
{}
