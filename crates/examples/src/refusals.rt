// Every refusal with its number, its layer and its place.
use grammar::refusals::Refusal;

#[test]
fn refusals_tell_layer_number_and_place(rt: HostRuntime) {
    // layer, number and place, as users see them, and the refusal
    let rows = [
        (0, 1, 0, Refusal::OffBoard),
        (0, 2, 0, Refusal::LabelTaken),
        (0, 3, 0, Refusal::BoardFull),
        (0, 4, 0, Refusal::BoardAtLimit),
        (1, 5, 0, Refusal::BookDead),
        (1, 6, 0, Refusal::HuntOpen),
        (1, 7, 1, Refusal::NoStrand { place: 1 }),
        (1, 8, 0, Refusal::BookFull),
        (1, 9, 0, Refusal::TapeTooLong),
        (1, 10, 0, Refusal::NoHunt),
        (1, 11, 0, Refusal::Spent),
        (1, 12, 0, Refusal::PastTape),
        (1, 13, 0, Refusal::TooSmall),
        (1, 14, 0, Refusal::BadPattern),
        (2, 15, 0, Refusal::NotNewborn),
        (2, 16, 35, Refusal::FileShort { place: 35 }),
        (2, 17, 12, Refusal::BadHeader { place: 12 }),
        (2, 18, 28, Refusal::BadLine { place: 28 }),
        (3, 19, 200, Refusal::BadCommand { place: 200 }),
    ];
    for (layer, number, place, refusal) in rows {
        assert_eq!(rt; refusal.layer().number(), layer);
        assert_eq!(rt; refusal.number(), number);
        assert_eq!(rt; refusal.place(), place);
    }
}
