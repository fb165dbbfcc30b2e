//! What a change of rows reaches and costs, worked out, and what is not in reach.
#![tactic(auto)]

ghost use Rattle.std.specs.Prelude.{◌≡◌, ℕ, ◌≤◌, ◌+◌, ◌-◌, ◌&&◌, ◌||◌, not, List, ◌∷◌, [], sum_by, true, false};
ghost use Rattle.std.specs.List.{list_any};
ghost use Rattle.aq_base.specs.Calendar.{day_number, hour_number, quarter_of};
ghost use Rattle.aq_base.specs.Site.{Site};
ghost use Rattle.aq_base.specs.declared.day.TheConstants.{LAST_DAY, LAST_HOUR};
ghost use Rattle.aq_base.specs.declared.monitor.Duration.TheVariants.{Day};
ghost use Rattle.aq_base.specs.declared.monitor.Pollutant.TheVariants.{Ozone, Pm25, Pm10};
ghost use Rattle.aq_base.specs.declared.office.OfficeKey.TheVariants.{Monitor as MonitorKey, Primary as PrimaryKey, Schedule as ScheduleKey, Makeup as MakeupKey, Event as EventKey, Concurrence as ConcurrenceKey};
ghost use Rattle.aq_base.specs.declared.office.OfficeRecord.TheVariants.{Monitor, Schedule, Season, Makeup, Approved};
ghost use Rattle.aq_rules.specs.Kept.Cells.{CellName, HourCell, WindowCell, OzoneDayCell, OzoneYearCell, PmDayCell, PmYearCell, StratumCell, QuarterCell, is_same_cell};
ghost use Rattle.aq_rules.specs.Kept.Reach.{ChangedObservation, ChangedRecord, cells_reading, changed_rows, cost, each_once, reach, reads, steps_of};
ghost use Rattle.aq_rules.specs.Kept.ReachExamples.{after_changes, after_load, april, before_load, designations, hours_of_a_day, july, last_schedule, new_year, ozone_at, ozone_key, pm10_key, pm25_key, scheduled_day, schedules, smoky, with_records};
ghost use Rattle.aq_rules.specs.Office.Office.{IsOffice, Office};
ghost use Rattle.aq_rules.specs.Office.OfficeExamples.{east, monitor_at, monitors, noon, plain_day, sampled, west};
ghost use Rattle.aq_rules.specs.Ozone.SiteHour.{site_hour};

/// A load without a line costs 16 steps for its own row. With one ozone hour it costs 108: two rows, the
/// hour, eight averages and the day. The first hours of the profile are read by fewer averages, and before
/// 07:00 by no day; put by a load without a number they cost 60, 84 and 92.
#[tactic(auto, unfolding(crate::specs::Kept::Reach::cost, crate::specs::Kept::Reach::cost_of, crate::specs::Kept::Reach::changed_rows, crate::specs::Kept::Reach::each_once, crate::specs::Kept::Reach::cells_reading, crate::specs::Kept::Reach::reads, aq_base::specs::Calendar::year_of, aq_base::specs::Calendar::days_of_years, aq_base::specs::Calendar::month_of, aq_base::specs::Calendar::days_of_months))]
pub fn ozone_hours_cost_this()
    ensures no_line { cost before_load (after_load []) ≡ 16 }
    ensures one_hour { cost before_load (after_load (ozone_at noon ∷ [])) ≡ 108 }
    ensures first_hour { cost before_load (after_changes [] (ozone_at 0 ∷ [])) ≡ 60 }
    ensures seventh_hour { cost before_load (after_changes [] (ozone_at 6 ∷ [])) ≡ 84 }
    ensures eighth_hour { cost before_load (after_changes [] (ozone_at 7 ∷ [])) ≡ 92 }
{}

/// The hours of an ozone day, from 07:00 to 06:00, cost 1,488 steps: 25 rows, 24 hours, 31 averages and
/// the day.
#[tactic(auto, unfolding(crate::specs::Kept::Reach::cost, crate::specs::Kept::Reach::cost_of, crate::specs::Kept::Reach::changed_rows, crate::specs::Kept::Reach::each_once, crate::specs::Kept::Reach::cells_reading, crate::specs::Kept::Reach::reads, aq_base::specs::Calendar::year_of, aq_base::specs::Calendar::days_of_years, aq_base::specs::Calendar::month_of, aq_base::specs::Calendar::days_of_months))]
pub fn an_ozone_day_costs_1488()
    ensures { cost before_load (after_load hours_of_a_day) ≡ 1488 }
{}

/// A designation is read up to the day before the next one of its site and pollutant starts: the hours of
/// its days, the averages that read one of them, the day before, whose averages reach into it, and no hour
/// of the next designation. That of another pollutant or site in between does not end it.
#[tactic(auto, unfolding(crate::specs::Kept::Reach::reads, crate::specs::Kept::Reach::cells_reading, crate::specs::Office::Schedule::is_scheduled, crate::specs::Particles::QuarterCounts::days_of_quarter, crate::specs::Particles::Strata::first_days_after, aq_base::specs::Calendar::year_of, aq_base::specs::Calendar::days_of_years, aq_base::specs::Calendar::month_of, aq_base::specs::Calendar::days_of_months))]
pub fn a_designation_is_read_up_to_the_next()
    ensures first_hour { reads designations (HourCell west (hour_number plain_day 0)) (ChangedRecord (PrimaryKey west Ozone plain_day) true) ≡ true }
    ensures last_hour { reads designations (HourCell west (hour_number (plain_day + 1) 23)) (ChangedRecord (PrimaryKey west Ozone plain_day) true) ≡ true }
    ensures next_hour { reads designations (HourCell west (hour_number (plain_day + 2) 0)) (ChangedRecord (PrimaryKey west Ozone plain_day) true) ≡ false }
    ensures hour_before { reads designations (HourCell west (hour_number plain_day 0 - 1)) (ChangedRecord (PrimaryKey west Ozone plain_day) true) ≡ false }
    ensures average_before { reads designations (WindowCell west (hour_number plain_day 0 - 7)) (ChangedRecord (PrimaryKey west Ozone plain_day) true) ≡ true }
    ensures average_earlier { reads designations (WindowCell west (hour_number plain_day 0 - 8)) (ChangedRecord (PrimaryKey west Ozone plain_day) true) ≡ false }
    ensures day_before { reads designations (OzoneDayCell west (plain_day - 1)) (ChangedRecord (PrimaryKey west Ozone plain_day) true) ≡ true }
    ensures next_day { reads designations (OzoneDayCell west (plain_day + 2)) (ChangedRecord (PrimaryKey west Ozone plain_day) true) ≡ false }
    ensures other_site { reads designations (HourCell east (hour_number plain_day 0)) (ChangedRecord (PrimaryKey west Ozone plain_day) true) ≡ false }
    ensures other_pollutant { reads designations (PmDayCell west Pm10 plain_day) (ChangedRecord (PrimaryKey west Ozone plain_day) true) ≡ false }
    ensures last_of_pm10 { reads designations (PmDayCell west Pm10 (plain_day + 4)) (ChangedRecord (PrimaryKey west Pm10 (plain_day + 1)) true) ≡ true }
    ensures next_of_pm10 { reads designations (PmDayCell west Pm10 (plain_day + 5)) (ChangedRecord (PrimaryKey west Pm10 (plain_day + 1)) true) ≡ false }
    ensures last_of_the_east { reads designations (HourCell east (hour_number (plain_day + 4) 23)) (ChangedRecord (PrimaryKey east Ozone (plain_day + 1)) true) ≡ true }
    ensures next_of_the_east { reads designations (HourCell east (hour_number (plain_day + 5) 0)) (ChangedRecord (PrimaryKey east Ozone (plain_day + 1)) true) ≡ false }
{}

/// An event and its concurrence are read in the hours of the event, and nowhere if no event has the number.
#[tactic(auto, unfolding(crate::specs::Kept::Reach::reads, crate::specs::Kept::Reach::cells_reading, aq_base::specs::Calendar::year_of, aq_base::specs::Calendar::days_of_years, aq_base::specs::Calendar::month_of, aq_base::specs::Calendar::days_of_months))]
pub fn a_concurrence_is_read_in_the_hours_of_its_event()
    ensures first_hour { reads smoky (HourCell west noon) (ChangedRecord (ConcurrenceKey 7) true) ≡ true }
    ensures last_hour { reads smoky (HourCell west (noon + 2)) (ChangedRecord (ConcurrenceKey 7) true) ≡ true }
    ensures next_hour { reads smoky (HourCell west (noon + 3)) (ChangedRecord (ConcurrenceKey 7) true) ≡ false }
    ensures event { cells_reading smoky (ChangedRecord (EventKey 7) false) ≡ cells_reading smoky (ChangedRecord (ConcurrenceKey 7) true) }
    ensures no_event { cells_reading smoky (ChangedRecord (ConcurrenceKey 9) true) ≡ [] }
{}

/// A monitor is read from the first hour of the profile on; a new one is read nowhere, but of PM10 it is.
#[tactic(auto, unfolding(crate::specs::Kept::Reach::reads, crate::specs::Kept::Reach::cells_reading, crate::specs::Kept::Reach::every_hour, crate::specs::Office::Schedule::is_scheduled, crate::specs::Particles::QuarterCounts::days_of_quarter, crate::specs::Particles::Strata::first_days_after, aq_base::specs::Calendar::year_of, aq_base::specs::Calendar::days_of_years, aq_base::specs::Calendar::month_of, aq_base::specs::Calendar::days_of_months))]
pub fn a_new_monitor_is_read_nowhere_but_of_pm10()
    ensures changed { reads monitors (HourCell west 0) (ChangedRecord (MonitorKey (monitor_at west Ozone 1)) false) ≡ true }
    ensures new_of_ozone { cells_reading monitors (ChangedRecord (MonitorKey (monitor_at west Ozone 9)) true) ≡ [] }
    ensures new_of_pm25 { cells_reading monitors (ChangedRecord (MonitorKey (monitor_at west Pm25 9)) true) ≡ [] }
    ensures new_of_pm10 { reads monitors (PmDayCell west Pm10 0) (ChangedRecord (MonitorKey (monitor_at west Pm10 9)) true) ≡ true }
{}

/// An ozone hour before 07:00 is read by the day before: that of 06:00 on New Year's Day by the old year,
/// that of 07:00 by the new one. A PM2.5 sample is read by its day, its quarter and its year, and a PM10
/// sample by its day, its quarter and the stratum that holds the day, which is named by its first day: the
/// scheduled day before it, and without a schedule the quarter's seventh day.
#[tactic(auto, unfolding(crate::specs::Kept::Reach::reads, crate::specs::Kept::Reach::cells_reading, crate::specs::Office::Schedule::is_scheduled, crate::specs::Particles::QuarterCounts::days_of_quarter, crate::specs::Particles::Strata::first_days_after, aq_base::specs::Calendar::year_of, aq_base::specs::Calendar::days_of_years, aq_base::specs::Calendar::month_of, aq_base::specs::Calendar::days_of_months))]
pub fn observations_are_read_by_days_years_and_strata()
    ensures old_year { reads monitors (OzoneYearCell west 2024) (ChangedObservation (ozone_key (hour_number new_year 6))) ≡ true }
    ensures not_the_new_year { reads monitors (OzoneYearCell west 2025) (ChangedObservation (ozone_key (hour_number new_year 6))) ≡ false }
    ensures new_year { reads monitors (OzoneYearCell west 2025) (ChangedObservation (ozone_key (hour_number new_year 7))) ≡ true }
    ensures pm25 { cells_reading smoky (ChangedObservation (pm25_key plain_day)) ≡ PmDayCell west Pm25 plain_day ∷ QuarterCell west Pm25 (quarter_of plain_day) ∷ PmYearCell west 2024 ∷ [] }
    ensures scheduled { cells_reading schedules (ChangedObservation (pm10_key (scheduled_day + 3))) ≡ PmDayCell west Pm10 (scheduled_day + 3) ∷ QuarterCell west Pm10 (quarter_of plain_day) ∷ StratumCell west scheduled_day ∷ [] }
    ensures unscheduled { cells_reading smoky (ChangedObservation (pm10_key (scheduled_day + 3))) ≡ PmDayCell west Pm10 (scheduled_day + 3) ∷ QuarterCell west Pm10 (quarter_of plain_day) ∷ StratumCell west (plain_day + 6) ∷ [] }
{}

/// A schedule is read by the quarters that its days meet, up to the day before the next one of its site
/// and pollutant starts, and of PM10 by their strata; one of another pollutant or site does not end it. A
/// make-up is read by the quarter of its missed day.
#[tactic(auto, unfolding(crate::specs::Kept::Reach::reads, crate::specs::Kept::Reach::cells_reading, crate::specs::Office::Schedule::is_scheduled, crate::specs::Particles::QuarterCounts::days_of_quarter, crate::specs::Particles::Strata::first_days_after, aq_base::specs::Calendar::year_of, aq_base::specs::Calendar::days_of_years, aq_base::specs::Calendar::month_of, aq_base::specs::Calendar::days_of_months))]
pub fn schedules_are_read_by_quarters()
    ensures first_quarter { reads schedules (QuarterCell west Pm10 (quarter_of plain_day)) (ChangedRecord (ScheduleKey west Pm10 plain_day) false) ≡ true }
    ensures stratum { reads schedules (StratumCell west scheduled_day) (ChangedRecord (ScheduleKey west Pm10 plain_day) false) ≡ true }
    ensures quarter_before { reads schedules (QuarterCell west Pm10 (quarter_of plain_day - 1)) (ChangedRecord (ScheduleKey west Pm10 plain_day) false) ≡ false }
    ensures last_quarter { reads schedules (QuarterCell west Pm10 (quarter_of plain_day + 1)) (ChangedRecord (ScheduleKey west Pm10 plain_day) false) ≡ true }
    ensures next_quarter { reads schedules (QuarterCell west Pm10 (quarter_of new_year)) (ChangedRecord (ScheduleKey west Pm10 plain_day) false) ≡ false }
    ensures last_of_pm25 { reads schedules (QuarterCell west Pm25 (quarter_of new_year)) (ChangedRecord (ScheduleKey west Pm25 plain_day) false) ≡ true }
    ensures next_of_pm25 { reads schedules (QuarterCell west Pm25 (quarter_of april)) (ChangedRecord (ScheduleKey west Pm25 plain_day) false) ≡ false }
    ensures last_of_the_east { reads schedules (QuarterCell east Pm25 (quarter_of april)) (ChangedRecord (ScheduleKey east Pm25 plain_day) false) ≡ true }
    ensures next_of_the_east { reads schedules (QuarterCell east Pm25 (quarter_of july)) (ChangedRecord (ScheduleKey east Pm25 plain_day) false) ≡ false }
    ensures makeup { cells_reading smoky (ChangedRecord (MakeupKey west plain_day) true) ≡ QuarterCell west Pm25 (quarter_of plain_day) ∷ [] }
{}

/// A PM2.5 sample of the west costs 16 for its row and 94 for its day, since the site has one monitor of
/// hours and two of days; a new monitor costs 16 and 3 more, and so much more each day costs if the old
/// office alone has it. A PM10 sample costs 16, 22 for its day and 16 for its stratum. A season or an
/// approved day costs 16, and its year 732 once; a make-up or a schedule costs 16, and each quarter that it
/// meets in one of the offices 800.
#[tactic(auto, unfolding(crate::specs::Kept::Reach::cost, crate::specs::Kept::Reach::cost_of, crate::specs::Kept::Reach::changed_rows, crate::specs::Kept::Reach::each_once, crate::specs::Kept::Reach::cells_reading, crate::specs::Kept::Reach::reads, crate::specs::Office::Schedule::is_scheduled, crate::specs::Particles::QuarterCounts::days_of_quarter, crate::specs::Particles::Strata::first_days_after, aq_base::specs::Calendar::year_of, aq_base::specs::Calendar::days_of_years, aq_base::specs::Calendar::month_of, aq_base::specs::Calendar::days_of_months))]
pub fn samples_and_records_cost_this()
    ensures pm25_sample { cost before_load (after_changes [] (sampled west Pm25 4 120 plain_day ∷ [])) ≡ 110 }
    ensures new_monitor { cost before_load (after_changes (Monitor (monitor_at west Pm25 5) Day true ∷ []) (sampled west Pm25 5 120 plain_day ∷ [])) ≡ 129 }
    ensures old_monitor { steps_of (after_changes (Monitor (monitor_at west Pm25 5) Day true ∷ []) []) before_load [] (PmDayCell west Pm25 plain_day) ≡ 97 }
    ensures pm10_sample { cost before_load (after_changes [] (sampled west Pm10 3 120 plain_day ∷ [])) ≡ 54 }
    ensures season { cost before_load (after_changes (Season west 2024 (day_number 2024 3 1) (day_number 2024 10 31) ∷ []) []) ≡ 748 }
    ensures approved_day { cost before_load (after_changes (Approved west plain_day ∷ []) []) ≡ 748 }
    ensures season_and_day { cost before_load (after_changes (Season west 2024 (day_number 2024 3 1) (day_number 2024 10 31) ∷ Approved west plain_day ∷ []) []) ≡ 764 }
    ensures makeup { cost before_load (after_changes (Makeup west plain_day (plain_day + 1) ∷ []) []) ≡ 816 }
    ensures read_in_the_old_office { steps_of (with_records last_schedule) (with_records schedules) (ChangedRecord (ScheduleKey west Pm25 plain_day) false ∷ []) (QuarterCell west Pm25 (quarter_of april)) ≡ 800 }
    ensures read_in_the_new_office { steps_of (with_records schedules) (with_records last_schedule) (ChangedRecord (ScheduleKey west Pm25 plain_day) false ∷ []) (QuarterCell west Pm25 (quarter_of april)) ≡ 800 }
    ensures read_in_neither { steps_of (with_records schedules) (with_records schedules) (ChangedRecord (ScheduleKey west Pm25 plain_day) false ∷ []) (QuarterCell west Pm25 (quarter_of april)) ≡ 0 }
    ensures schedule_in_the_last_quarter { cost before_load (after_changes (Schedule west Pm25 LAST_DAY 1 LAST_DAY ∷ []) []) ≡ 816 }
{}

/// A cell is in reach exactly if it reads a changed row in the old office or in the new one.
pub fn what_reads_a_changed_row_is_in_reach()
    ensures { (old new : Office) (cell : CellName)
        → list_any (is_same_cell cell) (reach old new)
        ≡ list_any (λ row. reads old.records cell row || reads new.records cell row) (changed_rows old new) }
{}

/// What is not in reach is as before: an ozone hour that reads no changed row has the value it had.
pub fn hours_out_of_reach_are_as_before()
    ensures { (old new : Office) (site : Site) (hour : ℕ)
        → hour ≤ LAST_HOUR
        → IsOffice old
        → IsOffice new
        → list_any (is_same_cell (HourCell site hour)) (reach old new) ≡ false
        → site_hour old site hour ≡ site_hour new site hour }
{}

/// The steps of cells, each counted once: without one of the cells they are its own steps less, however
/// often the lists name a cell.
pub fn a_cell_less_is_its_steps_less()
    ensures { (steps : CellName → ℕ) (cell : CellName) (cells left : List CellName)
        → list_any (is_same_cell cell) cells ≡ true
        → ((other : CellName) → list_any (is_same_cell other) left ≡ (list_any (is_same_cell other) cells && not (is_same_cell cell other)))
        → sum_by steps (each_once cells) ≡ steps cell + sum_by steps (each_once left) }
{}
