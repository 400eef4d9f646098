//! The first line of a script, which has the settings of its cache.
ghost use Rattle.std.specs.Prelude.{◌≡◌, ◌↔◌, true, false, IsSome, IfSome, OnSome, List, option_map};
ghost use Rattle.std.specs.List.{AllByRecursion};
ghost use Rattle.mokabox_syntax.specs.FieldsLeft.{fields_left};
ghost use Rattle.mokabox_syntax.specs.Settings.{halves, setting_of, eviction_of, weighing_of, with_setting, settings_of, settings_by, first_line_of, IsGivable, settings_together};
ghost use Rattle.mokabox_syntax.specs.declared.settings.Setting.{Setting};

use crate::fields::{Fields, number};

/// The settings of a first line, each `None` if the line does not have it.
#[derive(Clone, Copy, Debug, Default, PartialEq, Eq)]
pub struct Settings {
    /// The time to live, in seconds.
    pub time_to_live: Option<u64>,
    /// The time to idle, in seconds.
    pub time_to_idle: Option<u64>,
    /// The first sequence number.
    pub first_number: Option<u64>,
    /// The capacity: the greatest total weight of the resident entries.
    pub capacity: Option<u64>,
    /// For how many entries memory is allocated at the start.
    pub initial_capacity: Option<u64>,
    /// The number of segments, which is rounded up to a power of two.
    pub segments: Option<u64>,
    /// The eviction policy.
    pub policy: Option<Eviction>,
    /// The weigher.
    pub weigher: Option<Weighing>,
    /// Whether `invalidate-if` is supported.
    pub closures: bool,
    /// How many entries one flush may evict.
    pub flush_limit: Option<u64>,
}

/// The eviction policy: which entries are evicted and which are admitted.
#[derive(Clone, Copy, Debug, PartialEq, Eq)]
pub enum Eviction {
    /// Evicts the least recently used entries, and admits every new one.
    Lru,
    /// Evicts the least recently used entries, for a new one whose estimated frequency exceeds the
    /// sum of theirs.
    TinyLfu,
}

/// How the values of a cache are weighed.
#[derive(Clone, Copy, Debug, PartialEq, Eq)]
pub enum Weighing {
    /// By their length in bytes, at most `u32::MAX`.
    Bytes,
}

/// One setting of a first line.
#[derive(Clone, Copy, Debug, PartialEq, Eq)]
pub enum Setting {
    /// The time to live, in seconds.
    TimeToLive(u64),
    /// The time to idle, in seconds.
    TimeToIdle(u64),
    /// The first sequence number.
    FirstNumber(u64),
    /// The capacity: the greatest total weight of the resident entries.
    Capacity(u64),
    /// For how many entries memory is allocated at the start.
    InitialCapacity(u64),
    /// The number of segments, which is rounded up to a power of two.
    Segments(u64),
    /// The eviction policy.
    Policy(Eviction),
    /// The weigher.
    Weigher(Weighing),
    /// Support for `invalidate-if`.
    Closures,
    /// How many entries one flush may evict.
    FlushLimit(u64),
}

impl Settings {
    /// Returns these settings and one more, or `None` if that is already set.
    fn with(self, setting: Setting) -> Option<Settings>
        ensures { result ≡ with_setting self setting }
    {
        let mut settings = self;
        match setting {
            Setting::TimeToLive(seconds) => give(&mut settings.time_to_live, seconds)?,
            Setting::TimeToIdle(seconds) => give(&mut settings.time_to_idle, seconds)?,
            Setting::FirstNumber(number) => give(&mut settings.first_number, number)?,
            Setting::Capacity(most) => give(&mut settings.capacity, most)?,
            Setting::InitialCapacity(count) => give(&mut settings.initial_capacity, count)?,
            Setting::Segments(count) => give(&mut settings.segments, count)?,
            Setting::Policy(eviction) => give(&mut settings.policy, eviction)?,
            Setting::Weigher(weighing) => give(&mut settings.weigher, weighing)?,
            Setting::Closures => set(&mut settings.closures)?,
            Setting::FlushLimit(most) => give(&mut settings.flush_limit, most)?,
        }
        Some(settings)
    }
}

/// Sets a setting, or returns `None` if it is already set.
fn give<T: Drop>(place: &mut Option<T>, value: T) -> Option<()>
    ensures once { IsSome result ↔ (place.old ≡ None) }
    ensures given { OnSome result (place.new ≡ Some value) }
{
    if place.is_some() {
        return None;
    }
    *place = Some(value);
    Some(())
}

/// Sets a flag, or returns `None` if it is already set.
fn set(flag: &mut bool) -> Option<()>
    ensures once { IsSome result ↔ (flag.old ≡ false) }
    ensures given { OnSome result (flag.new ≡ true) }
{
    if *flag {
        return None;
    }
    *flag = true;
    Some(())
}

/// Returns the settings of a first line, or `None` if it is not one, or has a setting twice.
pub fn parse(line: &[u8]) -> Option<Settings>
    // The line is written from settings, and the result is all of them together.
    ensures found { IfSome result
        (λ settings. (given : List Setting) × AllByRecursion IsGivable given
        × (line.now ≡ first_line_of given) × (settings_together given ≡ Some settings)) }
    // A line that is written from settings is read as all of them together, if none is twice in it.
    ensures only { (given : List Setting) → AllByRecursion IsGivable given →
        line.now ≡ first_line_of given → result ≡ settings_together given }
    // So the definition says which settings are read.
    ensures exact { result ≡ settings_by line.now }
{
    match str::from_utf8(line) {
        Ok(line) => read(Fields::of(line)),
        Err(_) => None,
    }
}

/// Reads the settings from the fields of a first line.
fn read(mut fields: Fields<'_>) -> Option<Settings>
    ensures { result ≡ settings_of (fields_left fields.entry) }
{
    if fields.next()? != "new" {
        return None;
    }
    let mut settings = Settings::default();
    for field in fields {
        settings = settings.with(read_setting(field)?)?;
    }
    Some(settings)
}

/// Reads one setting from a field.
#[tactic(auto, unfolding(crate::specs::Settings::setting_of))]
fn read_setting(field: &str) -> Option<Setting>
    ensures { result ≡ setting_of field.now }
{
    if field == "closures" {
        return Some(Setting::Closures);
    }
    let (name, value) = split_at_equals(field)?;
    match name {
        "ttl" => Some(Setting::TimeToLive(number(value)?)),
        "tti" => Some(Setting::TimeToIdle(number(value)?)),
        "first" => Some(Setting::FirstNumber(number(value)?)),
        "capacity" => Some(Setting::Capacity(number(value)?)),
        "initial" => Some(Setting::InitialCapacity(number(value)?)),
        "segments" => Some(Setting::Segments(number(value)?)),
        "policy" => Some(Setting::Policy(read_eviction(value)?)),
        "weigher" => Some(Setting::Weigher(read_weighing(value)?)),
        "flush" => Some(Setting::FlushLimit(number(value)?)),
        _ => None,
    }
}

/// Reads an eviction policy by its name.
fn read_eviction(name: &str) -> Option<Eviction>
    ensures { result ≡ eviction_of name.now }
{
    match name {
        "lru" => Some(Eviction::Lru),
        "tinylfu" => Some(Eviction::TinyLfu),
        _ => None,
    }
}

/// Reads a weigher by its name.
fn read_weighing(name: &str) -> Option<Weighing>
    ensures { result ≡ weighing_of name.now }
{
    match name {
        "bytes" => Some(Weighing::Bytes),
        _ => None,
    }
}

/// Returns what is before the first equals sign of a field, and what is after it.
fn split_at_equals(field: &str) -> Option<(&str, &str)>
    ensures { option_map (λ x. (x.0.now, x.1.now)) result ≡ halves field.now }
{
    field.split_once('=')
}
