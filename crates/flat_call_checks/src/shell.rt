/// A shell that shows two applications.
pub const SHELL: &[u8] = b"flatland 1
display 1280 800
session shell
session mail
session clock
buffers mb mail 2 640 760
pair root display shell
pair tm shell mail
pair tc shell clock
fence g1 mail
fence g2 mail
fence d1 mail
fence d2 mail
run
mail CreateView tm
mail GetLayout
clock CreateView tc
clock GetStatus
shell CreateView root
shell CreateTransform 1
shell SetRootTransform 1
shell CreateTransform 2
shell SetTranslation 2 0 40
shell CreateTransform 3
shell AddChild 1 2
shell AddChild 1 3
shell CreateViewport 1 tm 640 760
shell SetContent 2 1
shell CreateViewport 2 tc 1280 40
shell SetContent 3 2
shell GetChildStatus 1
shell Present 0
mail Wait answers 1
mail CreateTransform 1
mail SetRootTransform 1
mail CreateImage 1 mb 0 640 760
mail CreateImage 2 mb 1 640 760
mail SetContent 1 1
mail Present 0 acquire g1 release d1
clock CreateTransform 1
clock SetRootTransform 1
clock CreateFilledRect 1
clock SetSolidFill 1 0 0 0 128 1280 40
clock SetContent 1 1
clock Present 0
clock GetStatus
display begin 16
display done
mail Signal g1
display begin 33
display done
mail SetContent 1 2
mail Present 0 acquire g2 release d2
mail Wait fence d1
mail Signal g2
display begin 50
display done
";

/// The report of it in written order.
pub const SHELL_REPORTED: &[u8] = b"report flatland 1
mail 15 CreateView ok
mail 16 GetLayout held
clock 17 CreateView ok
clock 18 GetStatus held
shell 19 CreateView ok
shell 27 CreateViewport ok
> mail layout tm 640 760 inset 0 0 0 0 ratio 65536
shell 29 CreateViewport ok
> clock status tc disconnected
shell 31 GetChildStatus held
shell 32 Present 1 credits 0
mail 33 Wait met 1
mail 39 Present 1 credits 0
clock 45 Present 1 credits 0
clock 46 GetStatus held
display 47 begin 16 frame 1
> shell credits 5
> clock credits 5
display 48 done frame 1
item clock 1 fill 0 0 0 128 1280 40 m 0 65536 65536 0 0 v 0 0 83886080 2621440 o 65536 over
view shell - 0 0 83886080 52428800
view clock shell 0 0 83886080 2621440
apart mail
> shell framepresented 1
> clock status tc connected
> clock framepresented 1
mail 49 Signal ok
display 50 begin 33 frame 2
> mail credits 5
display 51 done frame 2
item mail 1 image mb 0 sample 0 0 640 760 size 640 760 flip 1 m 0 65536 65536 0 2621440 v 0 2621440 41943040 52428800 o 65536 src
item clock 1 fill 0 0 0 128 1280 40 m 0 65536 65536 0 0 v 0 0 83886080 2621440 o 65536 over
view shell - 0 0 83886080 52428800
view mail shell 0 2621440 41943040 52428800
view clock shell 0 0 83886080 2621440
> shell child tm content_has_presented
> mail framepresented 1
mail 53 Present 2 credits 4
mail 54 Wait met 1
mail 55 Signal ok
display 56 begin 50 frame 3
> mail credits 1
display 57 done frame 3
item mail 2 image mb 1 sample 0 0 640 760 size 640 760 flip 1 m 0 65536 65536 0 2621440 v 0 2621440 41943040 52428800 o 65536 src
item clock 1 fill 0 0 0 128 1280 40 m 0 65536 65536 0 0 v 0 0 83886080 2621440 o 65536 over
view shell - 0 0 83886080 52428800
view mail shell 0 2621440 41943040 52428800
view clock shell 0 0 83886080 2621440
> mail framepresented 1
shell end 0
mail end 0
clock end 0
report ends entries 26 frames 3
";

/// Its entries in written order: the numbers of actor and line.
pub const SHELL_ORDER: [(u32, u32); 26] = [
    (2, 15),
    (2, 16),
    (3, 17),
    (3, 18),
    (1, 19),
    (1, 27),
    (1, 29),
    (1, 31),
    (1, 32),
    (2, 33),
    (2, 39),
    (3, 45),
    (3, 46),
    (0, 47),
    (0, 48),
    (2, 49),
    (0, 50),
    (0, 51),
    (2, 53),
    (2, 54),
    (2, 55),
    (0, 56),
    (0, 57),
    (1, 58),
    (2, 58),
    (3, 58),
];
