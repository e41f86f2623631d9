// Sets of rooms, by the numbers that are put in and taken out.
use rooms::room_set::RoomSet;

#[test]
fn a_new_set_is_empty(rt: HostRuntime) {
    let set = RoomSet::empty();
    for room in 0..400 {
        assert!(rt; !set.contains(room));
    }
    assert_eq!(rt; set.shared(&set), 0);
}

#[test]
fn rooms_are_put_in_and_counted(rt: HostRuntime) {
    let mut set = RoomSet::empty();
    set.insert(0);
    set.insert(63);
    set.insert(64);
    set.insert(360);
    set.insert(360);
    assert!(rt; set.contains(0));
    assert!(rt; set.contains(63));
    assert!(rt; set.contains(64));
    assert!(rt; set.contains(360));
    assert!(rt; !set.contains(1));
    assert!(rt; !set.contains(296));
    assert_eq!(rt; set.shared(&set), 4);
}

#[test]
fn a_number_past_the_rooms_changes_nothing(rt: HostRuntime) {
    let mut set = RoomSet::empty();
    set.insert(384);
    set.insert(1000);
    assert!(rt; !set.contains(384));
    assert!(rt; !set.contains(1000));
    assert!(rt; !set.contains(0));
    assert_eq!(rt; set.shared(&set), 0);
}

#[test]
fn rooms_are_taken_out(rt: HostRuntime) {
    let mut set = RoomSet::empty();
    let mut struck = RoomSet::empty();
    set.insert(5);
    set.insert(200);
    set.insert(383);
    struck.insert(200);
    struck.insert(201);
    assert_eq!(rt; set.shared(&struck), 1);
    set.remove_all(&struck);
    assert!(rt; set.contains(5));
    assert!(rt; !set.contains(200));
    assert!(rt; !set.contains(201));
    assert!(rt; set.contains(383));
    assert_eq!(rt; set.shared(&struck), 0);
    assert_eq!(rt; set.shared(&set), 2);
}

#[test]
fn a_room_is_taken_out(rt: HostRuntime) {
    let mut set = RoomSet::empty();
    set.insert(63);
    set.insert(64);
    set.remove(63);
    set.remove(65);
    set.remove(1000);
    assert!(rt; !set.contains(63));
    assert!(rt; set.contains(64));
    assert_eq!(rt; set.shared(&set), 1);
}
