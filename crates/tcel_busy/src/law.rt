ghost use Rattle.tcel_busy.specs.BusyPeriod.{busy_periods_show_all};

/// The frames of the busy periods that start at time 0 tell which points are late and which responses are
/// worst (docs/analysis.md). A law without code.
pub fn busy_period_law()
    ensures { busy_periods_show_all }
{}
