// Laws as contracts of functions that do nothing: each of them can be called.
use accepted_program::{one_program, same_verdict, unambiguous};
use grammar_laws::{stuck_means, taken_means, worked_tokens};
use kernel_calls::{
    event_laws, holding_laws, midst_laws, moving_laws, result_laws, serving_laws, settling_laws,
};
use kernel_model::{acting, loops, open_calls, order, places, replay, soundness, stepping, waking};
use ready_delay_lists::list_laws;
use served_runs::served_runs;
use text_bounds::{bounds_by_tokens, worked_bounds};

// The laws of the uncut run.
#[test]
fn of_the_kernel() {
    soundness();
    order();
    places();
    loops();
    replay();
    stepping();
    acting();
    open_calls();
    waking();
}

// The laws of lists, of the midst of an event, and of what calls are made of.
#[test]
fn of_the_calls() {
    list_laws();
    midst_laws();
    event_laws();
    moving_laws();
    result_laws();
    serving_laws();
    holding_laws();
    settling_laws();
}

// The laws of the language: the table beside the trees, and what a text tells.
#[test]
fn of_the_language() {
    stuck_means();
    taken_means();
    worked_tokens();
    unambiguous();
    one_program();
    same_verdict();
    bounds_by_tokens();
    worked_bounds();
}

// The laws of served programs.
#[test]
fn of_served_programs() {
    served_runs();
}
