//! The image of the kernel in the nonvolatile words, layout 1: where each part lies, and what it shows.
#![tactic(auto)]

mod cell;
mod cells;
mod declared;
mod field;
mod initial;
mod layout;
mod parts;
mod readers;
mod sort;
mod start;
mod starts;
mod statics;

pub use cell::Cell;
pub use cells::{address, load, store};
pub use declared::{name_of, nth_of};
pub use field::Field;
pub use initial::{cell_of, initial_word};
pub use layout::{
    CODE, CONSOLE_AT, CONSOLE_LENGTH, CONSOLE_WORDS, DELAYED, ENDED, EVENTS, FIRST_HOLE, FREE,
    FRONT, HEAP_AT, HEAP_WORDS, LIVE_AT, LIVE_WORDS, NEXT_STAMP, PLACES, PRIORITY, QUEUE_ITEMS_AT,
    QUEUE_SPARE_AT, QUEUE_STRIDE, QUEUES_AT, READY, RECEIVES, RECORDS_AT, ROW_STRIDE, ROW_WORDS,
    ROWS_AT, SEMAPHORE_STRIDE, SEMAPHORES_AT, SENDS, SPARE_AT, SPARE_HEADER_AT, STAMP, START,
    START_COUNT, START_VALUES_AT, STATE, TAKES, TARGET, TEMPLATE, TICKS, UNTIL, USED, VALUE,
    WAITING, WHAT,
};
pub use readers::{counter, queue_item, row_state, ticks};
pub use sort::Sort;
pub use start::formatting_shows_the_start;
