ghost use Rattle.g1_layout.specs.Laws.{SurvivorsPlaceable, WithinRegions, PlacesRise, RunRegions, RunSurvivors, RunsInOrder};

/// What `place` asks is met by the survivors of every rising set of ordinary regions.
pub fn placeable()
    ensures { SurvivorsPlaceable }
{}

/// Survivors end within their regions, and don't meet.
pub fn within_regions()
    ensures within { WithinRegions }
    ensures rise { PlacesRise }
{}

/// The runs are the survivors, region by region.
pub fn runs_cover()
    ensures regions { RunRegions }
    ensures survivors { RunSurvivors }
    ensures in_order { RunsInOrder }
{}
