//! Laws of the definitions that a program can rely on: that nobody forges credentials, and so on. They
//! are stated in `specs/`, one file a subject. This crate has no program code; its functions have empty
//! bodies, and their contracts are the laws, each over every legal history.
#![tactic(auto)]

ghost use Rattle.ux_laws.specs.Waits.{ReceivesWait, ReadsWait, WaitsEnd, SendsWait, WritesWait, SendWaitsEnd};
ghost use Rattle.ux_laws.specs.Waits.{AcceptsWait, AcceptWaitsEnd, ConnectsWait, ConnectWaitsEnd};
ghost use Rattle.ux_laws.specs.Progress.{ReceivesWaitWhile, ReadsWaitWhile, InputOrWait, InputsCome, AcceptsWaitWhile, EndsCome, ConnectsWaitWhile};
ghost use Rattle.ux_laws.specs.Progress.{SendsWaitWhile, WritesWaitWhile};
ghost use Rattle.ux_laws.specs.Rooms.{QueuesGetRoom, SendsFindRoom, RoomOrWait, RoomsCome, SendsGoOn};
ghost use Rattle.ux_laws.specs.Rooms.{DatagramsGoOn, PlacesCome, ConnectsFindAPlace};
ghost use Rattle.ux_laws.specs.MessageWaits.{DatagramsWaitWhile, DatagramWritesWaitWhile, MessagesWaitWhile};
ghost use Rattle.ux_laws.specs.Polls.{PollsWaitWhile, NoLostWakeup};
ghost use Rattle.ux_laws.specs.PollWakes.{PollsAreWoken};
ghost use Rattle.ux_laws.specs.FileWaits.{FileReadsWaitWhile, FileWritesWaitWhile};
ghost use Rattle.ux_laws.specs.Credentials.{CredentialsAreTheSenders, PeersAreTheMakers};
ghost use Rattle.ux_laws.specs.Ends.{EndsAreForEver, ResetsAreOfLosses, LossesReset, SendsFindNobody, WritesBreak};
ghost use Rattle.ux_laws.specs.Ends.{ReadsTellTheEnd, ReceivesTellTheEnd};
ghost use Rattle.ux_laws.specs.Inputs.{ReadsEndTruly, ReceivesEndTruly, ReceivesGiveTheFirst, ReadsGiveTheFirst, PeeksTakeNothing};
ghost use Rattle.ux_laws.specs.Inputs.{EmptyQueuesGiveNothing, EmptyQueuesReadAsNothing};
ghost use Rattle.ux_laws.specs.Connections.{ConnectionsStay};
ghost use Rattle.ux_laws.specs.Sends.{SendsCount, WritesAreCutOff, SendsAreRefused, SendsBreak};
ghost use Rattle.ux_laws.specs.Beginning.{NobodyMakesThem, AllCallsAreTheirs};
ghost use Rattle.ux_laws.specs.Files.{EachHoldingHasAPedigree, ChangesHaveAWay, ReadsHaveAWay, StrangersHaveNoWay, StrangersChangeNothing};
ghost use Rattle.ux_laws.specs.Files.{UnwrittenFilesStay, ReadsTellTheFile, FilesKeepTheirPath, HoldOnlyWhatTheyMade, StrangerHasNoWay};
ghost use Rattle.ux_laws.specs.Writes.{WritesPut, FilesAreTheirWrites, BytesHaveAWay, ModesAreAsked, ModesStay, AppendsStay};
ghost use Rattle.ux_laws.specs.Writes.{FlagsAreSet, OffsetsStay, OpeningsAreAsAsked, NewFilesAreEmpty};
ghost use Rattle.ux_laws.specs.FileReads.{ReadsGiveTheFile, ReadsTakeOffThePipe, FileReadsEndTruly};
ghost use Rattle.ux_laws.specs.OwnNames.{NamesAreGiven, OneIsNamed, AbstractNamesAreAsked, PathsAreAsked, BindsName};
ghost use Rattle.ux_laws.specs.OwnNames.{NewSocketsHaveNoName};
ghost use Rattle.ux_laws.specs.Reach.{CallsLeaveOthersAlone, CallsLeaveTablesAlone, CallsLeavePathsAlone};
ghost use Rattle.ux_laws.specs.Reach.{AbstractNamesStay, AbstractNamesAreBound};
ghost use Rattle.ux_laws.specs.Apartness.{OthersChangeNothingSeen, SameCallsAreAnsweredAlike, ApartnessStays};
ghost use Rattle.ux_laws.specs.Apartness.{OthersKeepToTheirSide, ApartMeansApart};
ghost use Rattle.ux_laws.specs.Records.{RecordsArriveInOrder, RecordsArriveOnce, RecordsArriveWhole, ReadRecordsArriveWhole};
ghost use Rattle.ux_laws.specs.Rights.{RightsComeOnce, RightsComeWithTheirMessage, RightsAreAsked};
ghost use Rattle.ux_laws.specs.Separation.{KeptFilesAreSeparated};
ghost use Rattle.ux_laws.specs.Streams.{StreamsAreReliable};
ghost use Rattle.ux_model.specs.ReplyKinds.{RepliesAreOfTheirKind};
ghost use Rattle.ux_laws.specs.Users.{UnprivilegedStaySo, ChildrenAreOfTheirParents};

/// Credentials that a receive or a peek reports (SCM_CREDENTIALS) are those that the sending process had at
/// the time of its send, or that it gave while it was privileged; and each message of which the receive gives
/// a byte was sent with them.
pub fn nobody_forges_credentials()
    ensures { CredentialsAreTheSenders }
{}

/// SO_PEERCRED reports the process that made the pair; at a server's end the one that connected, at a client the
/// one that called listen last before that; with the credentials that it had then.
#[tactic(auto, using(crate::proofs::Makers::peers_are_the_makers))]
pub fn peers_are_who_made_the_connection()
    ensures { PeersAreTheMakers }
{}

/// A process without privileges keeps its user and its group, and never gets privileges: so one that has dropped them
/// has done so for good, whatever it calls.
#[tactic(auto, using(crate::proofs::Unprivileged::unprivileged_stay_so))]
pub fn unprivileged_processes_stay_so()
    ensures { UnprivilegedStaySo }
{}

/// A child is of its parent's user and group, and as privileged as that.
#[tactic(auto, using(crate::proofs::Unprivileged::children_are_of_their_parents))]
pub fn children_are_of_their_parents()
    ensures { ChildrenAreOfTheirParents }
{}

/// Streams are reliable: the bytes that sends and writes to a stream socket were answered to have taken, in
/// order, are those that receives and reads were given by it, in order, and then those that wait at it, as
/// long as it is there. Peeks take nothing.
#[tactic(auto, using(crate::proofs::Delivering::streams_are_reliable))]
pub fn streams_are_reliable()
    ensures { StreamsAreReliable }
{}

/// Each descriptor that a process holds has a pedigree: a chain of holdings leads to it from the call that made
/// what it leads to.
pub fn each_holding_has_a_pedigree()
    ensures { EachHoldingHasAPedigree }
{}

/// What is in a file object changes by a write through a descriptor whose pedigree begins with an open of that
/// object for writing, or with the call that made it, or, in a pipe or a counter, by a read through one for
/// reading, which takes what it gives. No other call changes it.
pub fn who_changes_a_file_has_a_way()
    ensures { ChangesHaveAWay }
{}

/// A read that is answered with bytes of a file object is through a descriptor whose pedigree begins with an
/// open of that object for reading, or with the call that made it.
pub fn who_reads_a_file_has_a_way()
    ensures { ReadsHaveAWay }
{}

/// Processes that never opened a path and were sent no descriptor, nor did or was any that made them by fork,
/// have no descriptor that leads to its file object.
pub fn strangers_have_no_way()
    ensures { StrangersHaveNoWay }
{}

/// So they don't change what is in it.
pub fn strangers_change_no_file()
    ensures { StrangersChangeNothing }
{}

/// A process of the start that never opened a path and was sent no descriptor has none that leads to its file object.
#[tactic(auto, using(crate::proofs::Firsts::stranger_has_no_way))]
pub fn stranger_has_no_way()
    ensures { StrangerHasNoWay }
{}

/// A memory file that no call opens for writing keeps the bytes of the start, as long as it is there.
#[tactic(auto, using(crate::proofs::Unwritten::unwritten_files_stay))]
pub fn unwritten_files_stay()
    ensures { UnwrittenFilesStay }
{}

/// A read of it that is answered bytes is answered some of these, one after another.
#[tactic(auto, using(crate::proofs::Unwritten::reads_tell_the_file))]
pub fn reads_tell_the_file()
    ensures { ReadsTellTheFile }
{}

/// A path that leads at some moment to a file object of the start is the one that led there then.
#[tactic(auto, using(crate::proofs::NoWay::files_keep_their_path))]
pub fn files_keep_their_path()
    ensures { FilesKeepTheirPath }
{}

/// A write to a memory file that is answered a count put so many of its bytes there: from the description's offset
/// on, or with O_APPEND from the end on, over what was there, with zeros in between where that is shorter; the
/// offset is behind them then.
pub fn writes_put_their_bytes()
    ensures { WritesPut }
{}

/// A memory file that a creating open or a memfd_create makes has no bytes then.
pub fn new_files_are_empty()
    ensures { NewFilesAreEmpty }
{}

/// What is in a memory file is what was there at an earlier moment, with all that writes have put there since.
pub fn files_are_their_writes()
    ensures { FilesAreTheirWrites }
{}

/// Each byte of it stood there then, fills a gap (zero), or is of a write since, through a descriptor whose
/// pedigree begins with an open of the file for writing, or with the call that made it.
pub fn bytes_have_a_way()
    ensures { BytesHaveAWay }
{}

/// What an open, a creating open or a memfd_create gives leads to a new description in the mode that was asked for,
/// with O_APPEND as it was, at the start of the file.
pub fn openings_are_as_asked()
    ensures { OpeningsAreAsAsked }
{}

/// What a descriptor leads to is open in the mode that was asked for: its pedigree begins with an open of the file
/// object in that very mode, or with the call that made it, which opened it so.
pub fn modes_are_asked_for()
    ensures { ModesAreAsked }
{}

/// A description of a file object leads to that object in the same mode for good.
pub fn modes_stay()
    ensures { ModesStay }
{}

/// O_APPEND of a description of a file object changes by fcntl's F_SETFL alone, through a descriptor that leads to
/// it.
pub fn appends_stay()
    ensures { AppendsStay }
{}

/// After each that is answered ok what its number leads to has O_APPEND and O_NONBLOCK as was asked.
pub fn flags_are_set()
    ensures { FlagsAreSet }
{}

/// The offset of a description of a file object changes by a read, a write or an lseek alone, through such a descriptor.
pub fn offsets_stay()
    ensures { OffsetsStay }
{}

/// A read of a memory file that is answered bytes gives those at the description's offset, as many as are there and
/// were asked for; the offset is behind them then.
pub fn reads_give_the_file()
    ensures { ReadsGiveTheFile }
{}

/// A read of a pipe takes its first bytes, as many as are there and were asked for.
pub fn reads_take_off_the_pipe()
    ensures { ReadsTakeOffThePipe }
{}

/// A read of some bytes of a file object is given none only at the end of a memory file, or of a pipe that is empty
/// and that nobody can write to.
pub fn file_reads_tell_no_false_end()
    ensures { FileReadsEndTruly }
{}

/// Processes that were sent no descriptor, nor was any that made them by fork, hold only what they made: the
/// pedigree of each descriptor of theirs begins with a call of one of them.
pub fn who_was_sent_nothing_holds_what_it_made()
    ensures { HoldOnlyWhatTheyMade }
{}

/// No fork makes a process of the start.
#[tactic(auto, using(crate::proofs::Firsts::nobody_makes_them))]
pub fn nobody_makes_processes_of_the_start()
    ensures { NobodyMakesThem }
{}

/// Where no process of the start forks, each call is by one of them, or is the layer's end.
#[tactic(auto, using(crate::proofs::Firsts::all_calls_are_theirs))]
pub fn without_forks_they_make_all_calls()
    ensures { AllCallsAreTheirs }
{}

/// Privilege separation: where one process alone opens a memory file's path, never to write, and none forks, the file keeps
/// its bytes, what any read of it is answered is a run of them, and no other process that was sent nothing has a
/// descriptor that leads to it.
#[tactic(auto, using(crate::proofs::Apart::kept_files_are_separated))]
pub fn kept_files_are_separated()
    ensures { KeptFilesAreSeparated }
{}

/// The packets that were sent to a datagram or seqpacket socket, in order, are those that receives and reads took
/// from it, in order, and then those that wait at it, as long as it is there. Each has the bytes of its send, and
/// the name that its sender had then.
pub fn records_come_in_order()
    ensures { RecordsArriveInOrder }
{}

/// No packet is taken twice.
pub fn no_record_comes_twice()
    ensures { RecordsArriveOnce }
{}

/// A receive or a peek gives the oldest packet that waits, cut to as many bytes as it asked for; MSG_TRUNC is told
/// exactly where bytes were left out.
pub fn records_come_whole()
    ensures { RecordsArriveWhole }
{}

/// A read gives the bytes of the oldest packet that waits, cut to as many as it asked for.
pub fn read_records_come_whole()
    ensures { ReadRecordsArriveWhole }
{}

/// One call at most, peeks apart, installs rights of the message that one send made.
pub fn rights_come_once()
    ensures { RightsComeOnce }
{}

/// The rights that a receive or a peek installs are of one message: it gives a byte of that, at a stream, and none of
/// a later one; those before have no rights.
pub fn rights_come_with_their_message()
    ensures { RightsComeWithTheirMessage }
{}

/// A process whose receives have no control space for a right is sent none.
pub fn who_asks_for_no_rights_is_sent_nothing()
    ensures { RightsAreAsked }
{}

/// A call changes no description but those in its reach (that its process's descriptors lead to, their peers,
/// targets and oldest waiting ends, and what the address that it gives leads to), those that it frees, and the
/// peers of these, which are reset.
pub fn calls_leave_others_alone()
    ensures { CallsLeaveOthersAlone }
{}

/// A call changes no table but that of its process and of a child that it makes. The layer's end empties all.
pub fn calls_leave_tables_alone()
    ensures { CallsLeaveTablesAlone }
{}

/// A call leaves each path that it doesn't itself bind, make or take away: it names what it named, or nothing
/// still.
pub fn calls_leave_paths_alone()
    ensures { CallsLeavePathsAlone }
{}

/// Processes that are apart from the rest see nothing of what others do: no call of another process that gives no address
/// of theirs changes their tables and ids, their descriptions, or what is in their file objects.
#[tactic(auto, using(crate::proofs::Aside::Unseen::others_change_nothing_seen))]
pub fn others_change_nothing_seen()
    ensures { OthersChangeNothingSeen }
{}

/// What they are answered depends on what they see alone: the same call that goes by descriptors, of the same process, in
/// two states that they can't tell apart, is answered the same, and leaves two such states.
pub fn same_calls_are_answered_alike()
    ensures { SameCallsAreAnsweredAlike }
{}

/// No call by descriptors makes a way between the sides, whichever of them makes it: they stay apart.
pub fn apartness_stays()
    ensures { ApartnessStays }
{}

/// Nor does any call of another process that gives no address of theirs and opens no file object of theirs by its path.
#[tactic(auto, using(crate::proofs::Aside::Own::others_keep_to_their_side))]
pub fn others_keep_to_their_side()
    ensures { OthersKeepToTheirSide }
{}

/// Apart means apart: two histories in which the watched processes make the same calls by descriptors, and the environment
/// chooses alike for them, answer them the same, whatever the others do, as long as no call makes a way between the sides.
pub fn apart_means_apart()
    ensures { ApartMeansApart }
{}

/// A name of the abstract namespace goes only with its socket.
pub fn abstract_names_stay()
    ensures { AbstractNamesStay }
{}

/// One that no socket has is given only to a socket that the caller has a descriptor of.
pub fn abstract_names_are_bound()
    ensures { AbstractNamesAreBound }
{}

/// A socket's own name changes only where it had none, by a bind or by SO_PASSCRED turned on, through a descriptor
/// that leads to it: to the address that bind asked for, which led nowhere, or to the least name that autobind has
/// left.
pub fn names_are_given()
    ensures { NamesAreGiven }
{}

/// A call names one socket at most.
pub fn one_socket_is_named()
    ensures { OneIsNamed }
{}

/// A name of the abstract namespace that no socket has is given by such a call alone.
pub fn abstract_names_are_asked_for()
    ensures { AbstractNamesAreAsked }
{}

/// So is a path that leads to no such socket.
pub fn paths_are_asked_for()
    ensures { PathsAreAsked }
{}

/// A bind that is answered ok finds its socket without a name, and leaves it one that was asked for and that leads to it.
pub fn binds_name_their_socket()
    ensures { BindsName }
{}

/// A new socket has no name, but the server's end that a connect makes: that has its listener's.
pub fn new_sockets_have_no_name()
    ensures { NewSocketsHaveNoName }
{}

/// Once its peer is gone, a connected socket stays without one, and no ECONNRESET comes to be pending.
pub fn ends_are_for_ever()
    ensures { EndsAreForEver }
{}

/// ECONNRESET comes to be pending at a connected socket only by the call that frees its peer.
pub fn resets_are_of_losses()
    ensures { ResetsAreOfLosses }
{}

/// A close, a dup2, an exec or an exit that frees the peer makes ECONNRESET pending exactly where the peer had
/// messages that nobody had read, or where no accept had taken it.
pub fn losses_reset()
    ensures { LossesReset }
{}

/// A send or a write to a peer that is gone takes nothing.
pub fn sends_find_nobody()
    ensures { SendsFindNobody }
{}

/// A write to a peer that is gone is answered EPIPE.
pub fn writes_break()
    ensures { WritesBreak }
{}

/// So is one where the socket is shut down for writing, or its peer for reading.
pub fn writes_are_cut_off()
    ensures { WritesAreCutOff }
{}

/// So is a plain send, which gives no address and no control buffer.
pub fn sends_break()
    ensures { SendsBreak }
{}

/// Any send there is refused, and why: for its flags, its control buffer or its address, else as a broken pipe.
pub fn sends_are_cut_off()
    ensures { SendsAreRefused }
{}

/// A send or a write that is answered a count took so many of its bytes: its target has one message more, behind
/// all others, with exactly these. A datagram or a record goes whole; of a stream's bytes go as many as there is
/// room for, at least one.
pub fn sends_count_what_they_take()
    ensures { SendsCount }
{}

/// A socket that is connected stays so, to the same peer, as long as it is there, and that to it.
pub fn connections_stay()
    ensures { ConnectionsStay }
{}

/// A read at a socket whose peer is gone gives what is queued; then it is answered ECONNRESET where that is pending,
/// which clears it; then no bytes. It never waits.
pub fn reads_tell_the_end()
    ensures { ReadsTellTheEnd }
{}

/// So does a receive.
pub fn receives_tell_the_end()
    ensures { ReceivesTellTheEnd }
{}

/// A read of some bytes is given none only at the end of input (its socket is shut down for reading, its peer for
/// writing or gone, and nothing is queued), or for a packet without bytes.
pub fn reads_tell_no_false_end()
    ensures { ReadsEndTruly }
{}

/// So is a receive.
pub fn receives_tell_no_false_end()
    ensures { ReceivesEndTruly }
{}

/// What a receive or a peek gives at a stream are the first bytes that wait there, no more than it asked for.
pub fn receives_give_the_first_bytes()
    ensures { ReceivesGiveTheFirst }
{}

/// So is what a read gives.
pub fn reads_give_the_first_bytes()
    ensures { ReadsGiveTheFirst }
{}

/// A peek leaves each queue as it is.
pub fn peeks_take_nothing()
    ensures { PeeksTakeNothing }
{}

/// Where nothing waits, a receive or a peek that isn't refused gives nothing: no bytes, no control and no sender.
pub fn empty_queues_give_nothing()
    ensures { EmptyQueuesGiveNothing }
{}

/// So does a read.
pub fn empty_queues_read_as_nothing()
    ensures { EmptyQueuesReadAsNothing }
{}

/// A receive that is answered EAGAIN finds nothing at its socket, whose input isn't over.
pub fn receives_wait()
    ensures { ReceivesWait }
{}

/// So does a read.
pub fn reads_wait()
    ensures { ReadsWait }
{}

/// A wait to receive ends by a send to the socket, by a shutdown of it or of its peer, or by a call that frees the
/// peer. After any other call a receive there would still wait.
pub fn what_ends_a_wait_to_receive()
    ensures { WaitsEnd }
{}

/// An accept is answered EAGAIN only where no end waits at the listening socket that it is called on.
pub fn accepts_wait()
    ensures { AcceptsWait }
{}

/// A wait to accept ends by a connect to the listener alone: after any other call no end waits still.
pub fn what_ends_a_wait_to_accept()
    ensures { AcceptWaitsEnd }
{}

/// A send of a stream or seqpacket socket is answered EAGAIN only where the peer's queue has no room.
pub fn sends_wait()
    ensures { SendsWait }
{}

/// So is a write.
pub fn writes_wait()
    ensures { WritesWait }
{}

/// A wait to send ends by a receive that takes something at the peer, by a new limit of its queue, by a shutdown of
/// it or of the sender, or by a call that frees it. After any other call the queue has no room still.
pub fn what_ends_a_wait_to_send()
    ensures { SendWaitsEnd }
{}

/// A connect of a stream or seqpacket socket is answered EAGAIN only where its address leads to a listening socket
/// whose backlog has no place.
pub fn connects_wait()
    ensures { ConnectsWait }
{}

/// A wait to connect ends by an accept at the listener or a listen on it: after any other call its backlog has no
/// place still, as long as the listener is there.
pub fn what_ends_a_wait_to_connect()
    ensures { ConnectWaitsEnd }
{}

/// A receive that asks for something is answered EAGAIN exactly while nothing is there: nothing is queued, input isn't
/// over, and no ECONNRESET is pending.
pub fn receives_wait_exactly_for_input()
    ensures { ReceivesWaitWhile }
{}

/// So is a read.
pub fn reads_wait_exactly_for_input()
    ensures { ReadsWaitWhile }
{}

/// At a datagram socket, or a connected one, either something is there or a receive has to wait: a message, a shutdown
/// for reading, a pending ECONNRESET, or a peer that is gone or shut down for writing.
pub fn input_or_wait()
    ensures { InputOrWait }
{}

/// A send of some bytes, or of a datagram or a record, brings it to its target; a shutdown to the socket or to its
/// peer; and the peer's loss. So the next receive there isn't answered EAGAIN.
pub fn input_comes()
    ensures { InputsCome }
{}

/// While the process has a number left, an accept is answered EAGAIN exactly while no end waits at the listener.
pub fn accepts_wait_exactly_for_ends()
    ensures { AcceptsWaitWhile }
{}

/// A connect of a stream or seqpacket socket that is answered ok brings an end to the listener: so the next accept there
/// isn't answered EAGAIN.
pub fn ends_come()
    ensures { EndsCome }
{}

/// A connect of an idle stream or seqpacket socket, by a name, is answered EAGAIN exactly while that leads to a
/// listening socket whose backlog has no place.
pub fn connects_wait_exactly_for_a_place()
    ensures { ConnectsWaitWhile }
{}

/// A plain send through a connected socket, of some bytes or of a record that isn't too long, is answered EAGAIN exactly
/// while the peer's queue has no room, the socket isn't shut down for writing, nor the peer for reading.
pub fn sends_wait_exactly_for_room()
    ensures { SendsWaitWhile }
{}

/// So is a write.
pub fn writes_wait_exactly_for_room()
    ensures { WritesWaitWhile }
{}

/// A plain send of a datagram that isn't too long, by an address or by an association, is answered EAGAIN exactly while its
/// target takes datagrams of the socket and its queue has no room, the socket isn't shut down for writing, nor the target for
/// reading.
pub fn datagrams_wait_exactly_for_room()
    ensures { DatagramsWaitWhile }
{}

/// So is a write, which goes where the socket is associated.
pub fn datagram_writes_wait_exactly_for_room()
    ensures { DatagramWritesWaitWhile }
{}

/// A send with a control buffer is answered EAGAIN, unless memory runs out, exactly where it is in order and the queue that it
/// would go to has no room. It is in order where its flags, its control buffer and its address are ones that a send takes,
/// its rights are open, its credentials may be told, and its user has few enough rights in flight.
pub fn messages_wait_exactly_for_room()
    ensures { MessagesWaitWhile }
{}

/// A receive makes room in the queue that it takes a record from, or bytes enough that fewer than the limit are left; so does
/// a new limit above what waits.
pub fn queues_get_room()
    ensures { QueuesGetRoom }
{}

/// So the next call isn't answered EAGAIN, where that sends to the socket of the queue: through a connected one, by an
/// association, or by an address.
pub fn sends_find_room()
    ensures { SendsFindRoom }
{}

/// Through a connected socket either a send needs no room or it has to wait for some: it needs none where the peer's queue
/// has room, where the socket is shut down for writing, and where the peer is shut down for reading or gone.
pub fn room_or_wait()
    ensures { RoomOrWait }
{}

/// After a call that makes room in the peer's queue, a shutdown of the socket for writing or of its peer for reading, or the
/// peer's loss, a send through the connected socket needs no room.
pub fn rooms_come()
    ensures { RoomsCome }
{}

/// So the next call, where that is a send or a write through it, isn't answered EAGAIN.
pub fn sends_go_on()
    ensures { SendsGoOn }
{}

/// Where room is made in the queue that a datagram goes to, that socket is shut down for reading or freed, or the sender is shut
/// down for writing, the next call isn't answered EAGAIN that sends one there.
pub fn datagrams_go_on()
    ensures { DatagramsGoOn }
{}

/// An accept that takes an end brings a place to its listener, where no more ends wait than may, and so does a listen with a
/// larger backlog than wait.
pub fn places_come()
    ensures { PlacesCome }
{}

/// So the next call, where that is a connect to the listener, isn't answered EAGAIN.
pub fn connects_find_a_place()
    ensures { ConnectsFindAPlace }
{}

/// A read of a pipe or a counter that asks for something is answered EAGAIN exactly while nothing is in it, and of a pipe
/// somebody can write to it. One of a memory file never is.
pub fn file_reads_wait_exactly_for_bytes()
    ensures { FileReadsWaitWhile }
{}

/// A write that doesn't fail is answered EAGAIN exactly while a pipe that somebody can read from has no room for its
/// bytes, or a counter for its number.
pub fn file_writes_wait_exactly_for_room()
    ensures { FileWritesWaitWhile }
{}

/// A poll of several descriptors that waits, of at most 64, is answered EAGAIN exactly while nothing is reported of any.
pub fn polls_wait_exactly_while_nothing_is_reported()
    ensures { PollsWaitWhile }
{}

/// And never while there is something to be told: a number that isn't open, input, room or the end of input that was asked
/// for, a description that is hung up or has failed.
pub fn polls_lose_no_wakeup()
    ensures { NoLostWakeup }
{}

/// What brings input, room or the end of input to a socket, or an end to a listener, ends the wait of a poll that asks for that
/// there, and so does the loss of a connected socket's peer, whatever is asked for: the next call, where that is such a poll,
/// isn't answered EAGAIN.
pub fn polls_are_woken()
    ensures { PollsAreWoken }
{}

/// A call is answered a refusal, or what its manual page says that it gives: `open` a descriptor, `read` bytes, and so on.
#[tactic(auto, using(ux_model::proofs::Sizes::ReplyKinds::replies_are_of_their_kind))]
pub fn replies_are_of_their_kind()
    ensures { RepliesAreOfTheirKind }
{}
