// The tags of records (document's Words) by which the writer tells its cases.
pub(crate) const DAILY: u64 = 1;

pub(crate) const FREE_TEXT: u64 = 2;

pub(crate) const SINGLE: u64 = 3;

pub(crate) const CYCLIC: u64 = 4;

pub(crate) const TIMES: u64 = 7;

pub(crate) const DAY_SEGMENTS: u64 = 8;

pub(crate) const WEEK_DAYS: u64 = 9;

pub(crate) const DAYS_OF_MONTH: u64 = 10;

pub(crate) const INTERVAL: u64 = 11;

pub(crate) const SIMPLE: u64 = 12;

pub(crate) const FROM_TO: u64 = 13;

pub(crate) const PAUSE: u64 = 16;

pub(crate) const AT_TIME: u64 = 17;
