//! The socket layer as definitions: what a state is, what each call answers and leaves, and which
//! histories are runs of it. They stand in `specs/`, one file a subject. This crate has no program
//! code; its functions have empty bodies, and their contracts are laws of the definitions.
#![tactic(auto)]

ghost use Rattle.ux_model.specs.Names.{FreeNameIsLeast};
ghost use Rattle.ux_model.specs.Stream.{RightsAreOfReached, OriginIsOfReached, RestIsOfReached};
ghost use Rattle.ux_model.specs.Release.{EndsAlike};
ghost use Rattle.ux_model.specs.HandingOut.{HandsOutWhatWasHeld};
ghost use Rattle.ux_model.specs.FreeChoices.{NeverLacksMemory, FailsWhereAnObjectFailed};
ghost use Rattle.ux_model.specs.History.{LeadsToOne, FrontIsLegal, ExitAndForkAlone, LiveOnesCounted, ForkAloneMakes, ForkTellsTheNext, LivesUntilExit, NumberedFromOne, NoCallBeforeMade};
ghost use Rattle.ux_model.specs.Peers.{OneGoes};
ghost use Rattle.ux_model.specs.Asking.{AskingChangesNothing};
ghost use Rattle.ux_model.specs.Invariants.{NoneLeftUnreferenced, SettlesAtOnce, StaysSettled, RefusalChangesNothing, RefusedEntryChangesNothing, WholeAfterAnyCalls, NothingDangles, ClosedOnce, BootObjectsClosedOnce, TheseAloneMakeObjects};
ghost use Rattle.ux_model.specs.ReadyCalls.{TellsInput, TellsRoom};
ghost use Rattle.ux_model.specs.FlightLaws.{FlightIsLimited, FlightOfUsersIsLimited};
ghost use Rattle.ux_model.specs.RoomLaws.{RepliesFit};
ghost use Rattle.ux_model.specs.Changes.{StepChangesTables, TablesStaySmall};
ghost use Rattle.ux_model.specs.PedigreeLaws.{MessagesAreSent, ChainIsOne, PedigreeIsOfOne, HoldsOnlyItsOwn};
ghost use Rattle.ux_model.specs.Owning.{NameGoes};
ghost use Rattle.ux_model.specs.Moves.{ProcessCounts, ChildCounts, SocketCounts, NewCounts, NewCountsAtObject, SameTargetCountsAlike, TakenPathCountsNot};

/// The name that autobind gives is that of the least number whose name isn't in use.
#[tactic(auto, using(crate::proofs::Changes::LeastNames::free_name_is_least))]
pub fn autobind_gives_the_least_name()
    ensures { FreeNameIsLeast }
{}

/// What a receive takes of a stream's queue: the rights of the messages that its bytes reach, the origin of
/// the first of these that has any, and it leaves all behind them, and what a message that was cut has left.
#[tactic(auto, using(crate::proofs::Messages::Reached::rights_are_of_reached, crate::proofs::Messages::Reached::origin_is_of_reached, crate::proofs::Messages::Reached::rest_is_of_reached))]
pub fn receive_takes_what_it_reaches()
    ensures rights { RightsAreOfReached }
    ensures origin { OriginIsOfReached }
    ensures rest { RestIsOfReached }
{}

/// Descriptions without a reference may be dropped one at a time and in any order: the same state is
/// left as when all go at once, again and again.
#[tactic(auto, using(crate::proofs::Releasing::AnyOrder::ends_alike))]
pub fn dropping_in_any_order()
    ensures { EndsAlike }
{}

/// Each reply shows whether memory ran out, so the calls of a history lead to one state.
#[tactic(auto, using(crate::proofs::Steps::Replays::leads_to_one))]
pub fn history_leads_to_one_state()
    ensures { LeadsToOne }
{}

/// The first entries of a legal history are one themselves.
#[tactic(auto, using(crate::proofs::Lists::Fronts::front_is_legal))]
pub fn front_of_a_legal_history()
    ensures { FrontIsLegal }
{}

/// A process ends with its own exit, and begins with the fork that reports its number, and with nothing else.
#[tactic(auto, using(crate::proofs::Processes::Living::exit_and_fork_alone))]
pub fn exit_ends_and_fork_begins_a_process()
    ensures { ExitAndForkAlone }
{}

/// The exit of a live process leaves one fewer, a fork that made one leaves one more, and any other call as
/// many.
#[tactic(auto, using(crate::proofs::Processes::Living::live_ones_counted))]
pub fn live_processes_are_counted()
    ensures { LiveOnesCounted }
{}

/// No step forgets a process, and a fork alone makes one.
#[tactic(auto, using(crate::proofs::Processes::Living::fork_alone_makes))]
pub fn fork_alone_makes_a_process()
    ensures { ForkAloneMakes }
{}

/// A fork reports the number that comes next.
#[tactic(auto, using(crate::proofs::Processes::Living::fork_tells_the_next))]
pub fn fork_tells_the_next_number()
    ensures { ForkTellsTheNext }
{}

/// The processes that lived at the start of a legal history or were made since are numbered from 1 to their
/// count.
#[tactic(auto, using(crate::proofs::Processes::Numbering::numbered_from_one))]
pub fn processes_are_numbered_from_one()
    ensures { NumberedFromOne }
{}

/// A process has made no call before it was made.
pub fn processes_call_once_they_are_made()
    ensures { NoCallBeforeMade }
{}

/// At the end of a legal history those processes live that did at its start or were made since, and haven't
/// made their exit.
#[tactic(auto, using(crate::proofs::Processes::Living::lives_until_exit))]
pub fn processes_live_until_their_exit()
    ensures { LivesUntilExit }
{}

/// Another process in the place of one changes the references by those of the two tables.
#[tactic(auto, using(crate::proofs::Counting::Moves::process_counts))]
pub fn process_counts()
    ensures { ProcessCounts }
{}

/// A further process adds the references of its table.
#[tactic(auto, using(crate::proofs::Counting::Moves::child_counts))]
pub fn child_counts()
    ensures { ChildCounts }
{}

/// A changed socket changes the references by those that it holds before and after.
#[tactic(auto, using(crate::proofs::Counting::Sockets::socket_counts))]
pub fn socket_counts()
    ensures { SocketCounts }
{}

/// A new description adds the references that it holds.
#[tactic(auto, using(crate::proofs::Counting::Moves::new_counts))]
pub fn new_description_counts()
    ensures { NewCounts }
{}

/// Where connected sockets name one another, one description that goes has one other to notify.
#[tactic(auto, using(crate::proofs::Releasing::OneGoes::one_goes))]
pub fn one_description_goes()
    ensures { OneGoes }
{}

/// A new description counts at the file object that it leads to.
#[tactic(auto, using(crate::proofs::Counting::Moves::new_counts_at_object))]
pub fn new_description_counts_at_its_object()
    ensures { NewCountsAtObject }
{}

/// A description that leads to the same file object as before counts as before.
#[tactic(auto, using(crate::proofs::Counting::Moves::same_target_counts_alike))]
pub fn same_target_counts_alike()
    ensures { SameTargetCountsAlike }
{}

/// A path that is taken away no longer counts at the file object that it named.
#[tactic(auto, using(crate::proofs::Counting::Moves::taken_path_counts_not))]
pub fn taken_path_counts_not()
    ensures { TakenPathCountsNot }
{}

/// After the rounds no description is there that nothing refers to.
#[tactic(auto, using(crate::proofs::Releasing::Settling::none_left_unreferenced))]
pub fn no_description_is_left_unreferenced()
    ensures { NoneLeftUnreferenced }
{}

/// What was released once has nothing more to release.
#[tactic(auto, using(crate::proofs::Releasing::Settling::settles_at_once))]
pub fn state_settles_at_once()
    ensures { SettlesAtOnce }
{}

/// No state of a legal history has anything left to release.
#[tactic(auto, using(crate::proofs::Releasing::Settling::stays_settled))]
pub fn legal_history_stays_settled()
    ensures { StaysSettled }
{}

/// An error leaves the very state, of which nothing was left to release, and releases nothing. But EIO
/// leaves one more failure of one file object, a pending ECONNRESET is cleared by its answer, and by
/// ECONNREFUSED a datagram socket whose associated target is gone may lose the association; besides,
/// nothing changes there either.
#[tactic(auto, using(crate::proofs::Invariants::Refusals::refusal_changes_nothing))]
pub fn refusal_changes_nothing()
    ensures { RefusalChangesNothing }
{}

/// A call that only asks leaves the very state, of which nothing was left to release, and releases nothing, whatever it
/// answers.
#[tactic(auto, using(crate::proofs::Invariants::Refusals::asking_changes_nothing))]
pub fn asking_changes_nothing()
    ensures { AskingChangesNothing }
{}

/// So of each entry of a legal history that reports an error.
pub fn refused_entry_changes_nothing()
    ensures { RefusedEntryChangesNothing }
{}

/// Whatever calls were made from a boot state on, of whatever processes and with whatever tags: what is
/// there is what is referenced, whatever is named is there, and all else that is said of the states of
/// legal histories (`nothing_dangles`).
#[tactic(auto, using(crate::proofs::Invariants::Dangling::whole_after_any_calls))]
pub fn any_calls_leave_a_whole_state()
    ensures { WholeAfterAnyCalls }
{}

/// In each state of a legal history what is there is what is referenced, whatever is named is there, and
/// the file objects are open. An end in a backlog stands there once, in no other backlog, and no accept
/// has taken it; connections are mutual; an abstract name leads to a socket that has it.
pub fn nothing_dangles()
    ensures { NothingDangles }
{}

/// One entry of a legal history at most reports that a file object was closed: the one by which its
/// last reference goes, and that one does. From the call that made it until then it has a reference,
/// and it is there in no state after that.
pub fn objects_are_closed_once()
    ensures { ClosedOnce }
{}

/// A file object of the boot state has a reference in each state until the one entry that reports that
/// it was closed, and is there in no state after that.
pub fn boot_objects_are_closed_once()
    ensures { BootObjectsClosedOnce }
{}

/// No step forgets the number of a file object, so each that is made gets a number that none had. A pipe2,
/// an eventfd, a memfd_create and an open that creates make one where they aren't refused, and no other
/// call does.
#[tactic(auto, using(crate::proofs::Invariants::MadeObjects::these_alone_make_objects))]
pub fn these_calls_alone_make_objects()
    ensures { TheseAloneMakeObjects }
{}

/// Each file object that a step hands out is the one that was held under that number before the call,
/// open or not as it was, now closed and otherwise the same. That holds of every state.
pub fn what_a_step_hands_out()
    ensures { HandsOutWhatWasHeld }
{}

/// In no state do close, unlink, lseek, ioctl, shutdown, listen, poll, getsockopt, fcntl, setsockopt of a queue's
/// limit, execve, and the ends of a process and of the layer, answer ENOMEM.
#[tactic(auto, using(crate::proofs::Invariants::FreeChoices::never_lacks_memory))]
pub fn some_calls_never_lack_memory()
    ensures { NeverLacksMemory }
{}

/// A step answers EIO exactly where a file object, which is there still, has failed once more. It is one
/// alone, and each other that stays has failed as often as before. That holds of every state.
#[tactic(auto, using(crate::proofs::Invariants::FreeChoices::fails_where_an_object_failed))]
pub fn failure_is_reported()
    ensures { FailsWhereAnObjectFailed }
{}

/// Where whoever an abstract name leads to shows it, one name at most goes with a description.
#[tactic(auto, using(crate::proofs::Counting::Owning::name_goes))]
pub fn one_name_goes()
    ensures { NameGoes }
{}

/// On a socket to and from which messages go, poll(2) reports no input exactly where a receive of one byte would
/// wait.
#[tactic(auto, using(crate::proofs::Messages::ReadyCalls::tells_input))]
pub fn poll_tells_of_input()
    ensures { TellsInput }
{}

/// And no room exactly where a send of one byte would wait.
#[tactic(auto, using(crate::proofs::Messages::ReadyCalls::tells_room))]
pub fn poll_tells_of_room()
    ensures { TellsRoom }
{}

/// Where no process of a user is privileged, and no privileged one becomes one of this user, the user never has
/// more rights in flight than the most descriptors that one of them may have. And where user 0 alone has
/// privileged processes, no other user does, whoever changes its ids.
#[tactic(auto, using(crate::proofs::Invariants::FlightLaws::flight_is_limited, crate::proofs::Invariants::FlightLaws::flight_of_users_is_limited))]
pub fn rights_in_flight_are_limited()
    ensures of_a_user { FlightIsLimited }
    ensures of_users { FlightOfUsersIsLimited }
{}

/// Each reply is as large as its request and the limits allow.
#[tactic(auto, using(crate::proofs::Sizes::ReplySizes::replies_fit))]
pub fn replies_fit_their_room()
    ensures { RepliesFit }
{}

/// A call shows by its request and its reply how it changes the descriptor tables: which numbers it gives and
/// what they lead to, which it takes away, and that all others stay.
pub fn a_call_shows_its_changes()
    ensures { StepChangesTables }
{}

/// Each message with rights that nobody has received was sent by the entry that its tag names, and its rights
/// are the descriptions that the numbers of that send led to then.
#[tactic(auto, using(crate::proofs::Pedigrees::Mail::messages_are_sent))]
pub fn waiting_rights_were_sent()
    ensures { MessagesAreSent }
{}

/// A holding has one pedigree at most.
pub fn a_holding_has_one_pedigree()
    ensures { ChainIsOne }
{}

/// All holdings of a pedigree lead to one open file description, and so does the descriptor at the history's
/// end.
#[tactic(auto, using(crate::proofs::Pedigrees::OneDescription::pedigree_is_of_one))]
pub fn pedigree_is_of_one_description()
    ensures { PedigreeIsOfOne }
{}

/// A process that was sent nothing holds only what it made, copied or inherited.
pub fn who_was_sent_nothing_holds_only_its_own()
    ensures { HoldsOnlyItsOwn }
{}

/// No descriptor table of a legal history has more places than one may have.
#[tactic(auto, using(crate::proofs::Invariants::SmallTables::tables_stay_small))]
pub fn tables_stay_small()
    ensures { TablesStaySmall }
{}
