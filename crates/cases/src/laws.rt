//! The laws: functions that do nothing, whose contracts say something of all texts, labels, trees or values. A call shows
//! that what a law requires can be met.
use bz_edit::advance;
use bz_grammar::ReadFault;
use bz_journal::{Past, Session, history_kept, past_holds, session_holds};
use bz_label::{Label, LabelFault, Target, TargetFault};
use bz_tree::parse;
use sheets::{Case, CaseFault, Page};
use std::alloc::Global;

/// Calls each law, and writes whether the values were there of which some say something.
pub(crate) fn answer(case: &Case, page: &mut Page) -> Result<(), CaseFault> {
    call_tokens_and_trees();
    call_values();
    call_tidying();
    call_words();
    call_effects();
    call_histories();
    let answer: &[u8] = if are_met(case.alloc) {
        b"called"
    } else {
        b"not called, since a value that a law speaks of is not there"
    };
    Ok(page.answer(answer)?)
}

fn call_tokens_and_trees() {
    bz_token::one_token();
    bz_token::begins();
    bz_token::separated();
    bz_token::single();
    bz_token::each_mark();
    bz_token::each_keyword();
    bz_token::each_number();
    bz_token::cuts();
    bz_token::by_characters();
    bz_token::class_of_number();
    bz_token::opens_after_prefix();
    bz_lex::laws::one_lexing();
    bz_lex::laws::coded_leaves();
    bz_grammar::laws::one_reading();
    bz_grammar::laws::one_file();
    bz_grammar::laws::legal_by_nodes();
    bz_grammar::laws::one_bzl_reading();
    bz_grammar::laws::worked_lines();
    bz_grammar::laws::kind_of_number();
}

fn call_values() {
    bz_value::worked_gaps();
    bz_value::build_values_are_proper();
    bz_hosts::worked_views();
    bz_hosts::worked_suites();
    bz_hosts::views_are_proper();
    bz_hosts::build_views();
    bz_hosts::comments_kept();
    bz_hosts::hosts_by_place();
    bz_hosts::worked_hosts();
    bz_rule::worked_bodies();
    bz_layout::flags_keep_layout();
    bz_layout::layout_is_accepted();
    bz_layout::build_layout_is_build();
    bz_layout::layout_is_too_deep();
    bz_layout::layout_reads_back();
    bz_layout::worked_rows();
}

fn call_tidying() {
    bz_passes::worked_passes();
    bz_passes::tidy_settles();
    bz_passes::tidy_stays();
    bz_passes::comments_stay();
    bz_passes::proper_stays();
    bz_passes::build_stays();
    bz_passes::marks_move();
    bz_passes::sorting_is_the_one();
    bz_passes::flags_settle();
    bz_passes::level_stays();
    bz_passes::level_keeps_comments();
    bz_passes::level_keeps_program();
    bz_passes::tidied_alone();
    bz_passes::worked_programs();
    bz_passes::program_stays();
    bz_passes::tokens_stay();
}

fn call_words() {
    bz_label::laws::path_law();
    bz_label::laws::key_laws();
    bz_label::laws::label_functions();
    bz_label::laws::shorter_forms();
    bz_command_syntax::text_stays_text();
    bz_command_syntax::identifiers_are_names();
    bz_command_syntax::worked_words();
    bz_command_syntax::worked_identifiers();
    bz_command_syntax::worked_commands();
    bz_command_syntax::worked_strings();
    bz_command_line::worked_command_lines();
}

fn call_effects() {
    bz_change::renamed_back();
    bz_list::adding_again();
    bz_list::added_is_there();
    bz_list::removing_again();
    bz_change::adding_entries_again();
    bz_change::added_entries_are_there();
    bz_change::set_entries_are_there();
    bz_change::removing_entries_again();
    bz_load::worked_loads();
    bz_load::loads_stay_proper();
    bz_load::loading_again();
    bz_load::loading_alone();
    bz_load::replacing_again();
    bz_load::dropping_again();
    bz_load::moving_again();
    bz_load::fixing_again();
    bz_load::comments_stay();
    bz_load::worked_usages();
    bz_load::usages_stay_proper();
    bz_load::repos_keep_comments();
    bz_load::adding_repos_again();
    bz_load::repos_there_and_back();
    bz_comment::comment_taken_away();
    bz_comment::own_comment_taken_away();
    bz_comment::comment_loses_none();
    bz_comment::own_comment_loses_none();
    bz_comment::worked_comments();
    bz_command::worked_effects();
    bz_command::worked_command_effects();
    bz_command::effects_stay_proper();
    bz_command::lines_matter();
    bz_command::commands_are_listed();
    bz_command::comments_stay();
}

fn call_histories() {
    bz_files::worked_folders();
    bz_files::folder_reads_back();
    bz_files::other_files_stay();
    bz_edit::laws::starts_small();
    bz_edit::laws::texts_kept();
    bz_edit::laws::steps_lead();
    bz_edit::laws::small_steps();
    bz_journal::worked_histories();
    bz_journal::alike_goes_on();
    bz_journal::stopped_is_resumed();
    bz_build_format::formatted_once();
    bz_build_format::formatted_suites_once();
    bz_build_format::views_keep_programs();
    bz_build_format::words_kept();
    bz_build_format::tokens_kept();
    bz_build_format::writing_keeps_program();
}

/// Calls the laws that speak of values. Whether each value was there.
fn are_met(alloc: Global) -> bool {
    one_label(alloc).is_ok()
        && one_target(alloc).is_ok()
        && one_tree(alloc).is_ok()
        && one_step(alloc).is_ok()
        && one_history(alloc).is_ok()
}

fn one_label(alloc: Global) -> Result<(), LabelFault> {
    let one = Label::read(alloc, "p", "//a:b")?;
    let other = Label::read(alloc, "p", "//a:b")?;
    bz_label::laws::one_label("p", "//a:b", &one, &other);
    Ok(())
}

fn one_target(alloc: Global) -> Result<(), TargetFault> {
    let one = Target::read(alloc, "//a:b")?;
    let other = Target::read(alloc, "//a:b")?;
    bz_label::laws::one_target("//a:b", &one, &other);
    Ok(())
}

fn one_tree(alloc: Global) -> Result<(), ReadFault> {
    let tree = parse(alloc, b"x = [1]\n")?;
    let other = parse(alloc, b"x = [1]\n")?;
    bz_grammar::laws::one_tree(&tree, &other);
    Ok(())
}

fn one_step(alloc: Global) -> Result<(), ReadFault> {
    let mut tree = parse(alloc, b"x = [1]\n")?;
    let next = parse(alloc, b"x = [2]\n")?;
    bz_edit::laws::least(&tree.root, &next.root);
    bz_edit::laws::turned(&tree.root, &next.root);
    bz_edit::laws::cut(&tree.root, &next.root);
    let Ok(step) = advance(&mut tree, next) else {
        return Err(ReadFault::Memory);
    };
    bz_edit::laws::gives_back(&tree.root, &step);
    Ok(())
}

fn one_history(alloc: Global) -> Result<(), ReadFault> {
    let session = Session::open(alloc, "p", b"x = [1]\n")?;
    history_kept(&session);
    session_holds(&session);
    past_holds(&Past::new(session));
    Ok(())
}
