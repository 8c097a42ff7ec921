//! Ray problems, price problems, price steps and walks on a form, the answer of a region, and their laws. Each law is the contract of a function that
//! does nothing.
#![tactic(auto)]

mod answers;
mod prices;
mod rays;
mod sites;
mod walks;

pub use answers::{
    answers_are_true, answers_exclude_each_other, regions_have_answers,
    worked_programs_have_their_answers,
};
pub use prices::{
    price_length_is_computed, price_problem_leads_down, price_step_falls, refuted_price_is_optimal,
    stationary_points_are_few, supports_of_stationary_points_differ,
};
pub use rays::{
    chains_of_a_form_are_short, feasible_problem_tells_solutions, ray_problem_tells_rays,
    rays_depend_on_which_bounds_exist,
};
pub use sites::{
    budgets_are_used_up_at_one_site_first, large_budgets_are_enough,
    value_ends_with_its_first_refusal,
};
pub use walks::{
    shrink_steps_keep_the_budget, walk_values_fall, walks_are_short, walks_end, walks_go_on,
};
